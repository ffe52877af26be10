//! Events of clients as steps on the world.
#![tactic(auto, using(kak_world::proofs::WorldLaws::world_laws, crate::proofs::KeepingLaws::joined_key))]

ghost use Rattle.std.specs.Prelude.{◌≡◌, [], true, IfOk, OnErr, OnOk, false};
ghost use Rattle.kak_world.specs.Flat.{is_joined, acts, is_client_leaving};
ghost use Rattle.kak_world.specs.Events.{refused};
ghost use Rattle.kak_world.specs.Stored.{IsStepOf};
ghost use Rattle.kak_engine.specs.Steps.{after_key, may_leave_by, after_event, output_of, asked_by, begun, step_begun, after_coming, after_going, group_ended, shown_to, noted_drawn, resized, after_scroll, after_mouse, AreAskedFor, IsStepLeft};
ghost use Rattle.kak_engine.specs.Honesty.{IsHonest};
ghost use Rattle.kak_engine.specs.Seen.{told_as};
ghost use Rattle.kak_engine.specs.Held.{CanCome, CanRun};
ghost use Rattle.session_events.specs.declared.event.Event.TheVariants.{Join, Leave, Key as Struck};
ghost use Rattle.session_events.specs.Entries.{kind_of, is_join};
ghost use Rattle.draw_model.specs.Drawings.{drawing_of};

use crate::ending::Told;
use crate::engine::MAX_UNITS;
use crate::hooking::{hear_coming, hear_going};
use crate::outside::Outside;
use crate::playing::strike_key;
use crate::recording::{listen, record_key};
use draw_model::{gutter_of, note_drawn};
use drawings::Drawing;
use kak_text::Chars;
use kak_world::{Mode, StatusText, Turn, World};
use key_names::Key;
use mouse_events::Mouse;
use regex_ports::Pattern;
use session_events::{Answers, Event, Output};
use std::alloc::{AllocError, Global};
use window_view::Size;

// Tells a client that its step was given up.
fn refuse<P: Pattern, T: Turn>(world: &mut World<P, T>, who: u32, text: Chars)
    requires { acts who world.old.flat ≡ true }
    ensures { world.new.flat ≡ refused who text world.old.flat }
{
    world.own_mut(who).status = StatusText::Refused(text);
}

// Tells a client how its step ended.
fn tell<P: Pattern, T: Turn>(world: &mut World<P, T>, who: u32, told: Told)
    requires { acts who world.old.flat ≡ true }
    ensures { world.new.flat ≡ told_as told who world.old.flat }
{
    match told {
        Told::Nothing => {}
        Told::Fault(fault) => world.keep_fault(who, fault),
        Told::GivenUp(text) => refuse(world, who, text),
    }
}

// Ends what is pending of a client whose key ends: outside insert mode it is committed.
fn end_group<P: Pattern, T: Turn>(world: &mut World<P, T>, who: u32)
    requires { acts who world.old.flat ≡ true }
    ensures { world.new.flat ≡ group_ended who world.old.flat }
{
    let mode = world.own(who).mode;
    match mode {
        Mode::Insert => {}
        Mode::Normal => world.commit(who),
        Mode::Prompt => world.commit(who),
    }
}

// Begins a key of a client, whose turn it is then.
fn begin<P: Pattern, T: Turn>(world: &mut World<P, T>, who: u32)
    requires own { IsStepOf who T.began }
    requires joined { is_joined who world.old.flat ≡ true }
    ensures begins { world.new.flat ≡ begun who world.old.flat }
    ensures acts { acts who world.new.flat ≡ true }
{
    listen(world, who);
    world.set_units(MAX_UNITS);
    world.enter(who);
}

// Runs a key of a client that wasn't granted to leave.
fn run_struck<O: Outside, T: Turn>(
    alloc: Global,
    world: &mut World<O::P, T>,
    outside: &mut O,
    answers: &mut Answers,
    who: u32,
    key: Key,
) -> Result<(), AllocError>
    requires own { IsStepOf who T.began }
    requires joined { is_joined who world.old.flat ≡ true }
    requires stays { is_client_leaving who world.old.flat ≡ false }
    requires fresh { answers.old ≡ [] }
    ensures leads { OnOk result (world.new.flat ≡ after_key who key answers.new world.old.flat) }
    ensures asked { OnOk result (AreAskedFor who (Struck key) answers.new world.old.flat) }
    ensures honest { OnOk result (IsHonest answers.new (asked_by who (Struck key) answers.new world.old.flat) (O.seen outside.old) (O.seen outside.new)) }
    ensures cut { OnErr result (IsStepLeft who (Struck key) world.old.flat world.new.flat (O.seen outside.old) (O.seen outside.new)) }
{
    begin(world, who);
    let ending = strike_key(alloc, world, outside, answers, who, key)?;
    let told = ending.told(alloc)?;
    record_key(world, who, key)?;
    tell(world, who, told);
    end_group(world, who);
    world.end_step();
    Ok(())
}

// Runs a key of a client, and tells whether it was granted to leave by it. Once it was, its keys do nothing.
fn run_key<O: Outside, T: Turn>(
    alloc: Global,
    world: &mut World<O::P, T>,
    outside: &mut O,
    answers: &mut Answers,
    who: u32,
    key: Key,
) -> Result<bool, AllocError>
    requires own { IsStepOf who T.began }
    requires joined { is_joined who world.old.flat ≡ true }
    requires fresh { answers.old ≡ [] }
    ensures leads { OnOk result (world.new.flat ≡ after_key who key answers.new world.old.flat) }
    ensures leaving { IfOk result (λ leaving. leaving ≡ may_leave_by who key answers.new world.old.flat) }
    ensures asked { OnOk result (AreAskedFor who (Struck key) answers.new world.old.flat) }
    ensures honest { OnOk result (IsHonest answers.new (asked_by who (Struck key) answers.new world.old.flat) (O.seen outside.old) (O.seen outside.new)) }
    ensures cut { OnErr result (IsStepLeft who (Struck key) world.old.flat world.new.flat (O.seen outside.old) (O.seen outside.new)) }
{
    let own = world.own(who);
    if own.leaving {
        return Ok(false);
    }
    run_struck(alloc, world, outside, answers, who, key)?;
    let own = world.own(who);
    Ok(own.leaving)
}

// Begins the step of a client that comes or goes.
fn begin_step<P: Pattern, T: Turn>(world: &mut World<P, T>, who: u32)
    requires own { IsStepOf who T.began }
    requires joined { is_joined who world.old.flat ≡ true }
    ensures begins { world.new.flat ≡ step_begun who world.old.flat }
    ensures acts { acts who world.new.flat ≡ true }
{
    world.end_step();
    world.set_units(MAX_UNITS);
    world.enter(who);
}

// Has a client come, runs the hooks of that, and tells whether it was granted to leave by them.
fn run_coming<O: Outside, T: Turn>(
    alloc: Global,
    world: &mut World<O::P, T>,
    outside: &mut O,
    answers: &mut Answers,
    who: u32,
) -> Result<bool, AllocError>
    requires own { IsStepOf who T.began }
    requires comes { CanCome who world.old.flat }
    requires fresh { answers.old ≡ [] }
    ensures leads { OnOk result (world.new.flat ≡ after_coming who answers.new world.old.flat) }
    ensures joined { OnOk result (is_joined who world.new.flat ≡ true) }
    ensures leaving { IfOk result (λ leaving. leaving ≡ is_client_leaving who world.new.flat) }
    ensures asked { OnOk result (AreAskedFor who Join answers.new world.old.flat) }
    ensures honest { OnOk result (IsHonest answers.new (asked_by who Join answers.new world.old.flat) (O.seen outside.old) (O.seen outside.new)) }
    ensures cut { OnErr result (IsStepLeft who Join world.old.flat world.new.flat (O.seen outside.old) (O.seen outside.new)) }
{
    world.join(alloc, who)?;
    begin_step(world, who);
    let ending = hear_coming(alloc, world, outside, answers, who)?;
    let told = ending.told(alloc)?;
    tell(world, who, told);
    world.end_step();
    let own = world.own(who);
    Ok(own.leaving)
}

// Runs the hooks of a client's going, and has it go, however they ended.
fn run_going<O: Outside, T: Turn>(
    alloc: Global,
    world: &mut World<O::P, T>,
    outside: &mut O,
    answers: &mut Answers,
    who: u32,
) -> Result<(), AllocError>
    requires own { IsStepOf who T.began }
    requires joined { is_joined who world.old.flat ≡ true }
    requires fresh { answers.old ≡ [] }
    ensures leads { OnOk result (world.new.flat ≡ after_going who answers.new world.old.flat) }
    ensures asked { OnOk result (AreAskedFor who Leave answers.new world.old.flat) }
    ensures honest { OnOk result (IsHonest answers.new (asked_by who Leave answers.new world.old.flat) (O.seen outside.old) (O.seen outside.new)) }
    ensures cut { OnErr result (IsStepLeft who Leave world.old.flat world.new.flat (O.seen outside.old) (O.seen outside.new)) }
{
    begin_step(world, who);
    let _ending = hear_going(alloc, world, outside, answers, who)?;
    world.end_step();
    world.leave(who);
    Ok(())
}

// Gives a client's windows a size. Takes no memory.
fn resize<P: Pattern, T: Turn>(world: &mut World<P, T>, who: u32, size: Size)
    requires { is_joined who world.old.flat ≡ true }
    ensures { world.new.flat ≡ resized who size world.old.flat }
{
    world.own_mut(who).size = size;
}

// Lets a client's window go so many lines on, or back. It is its turn meanwhile. Takes no memory.
fn scroll<P: Pattern, T: Turn>(alloc: Global, world: &mut World<P, T>, who: u32, lines: i32)
    requires own { IsStepOf who T.began }
    requires joined { is_joined who world.old.flat ≡ true }
    ensures { world.new.flat ≡ after_scroll who lines world.old.flat }
{
    world.enter(who);
    pointer_rows::scroll(alloc, world, who, lines);
    world.end_step();
}

// Does to a client what a mouse did over its window. It is its turn meanwhile. Takes no memory.
fn point<P: Pattern, T: Turn>(alloc: Global, world: &mut World<P, T>, who: u32, mouse: Mouse)
    requires own { IsStepOf who T.began }
    requires joined { is_joined who world.old.flat ≡ true }
    ensures { world.new.flat ≡ after_mouse who mouse world.old.flat }
{
    world.enter(who);
    let gutter = gutter_of(world, who, world.tabstop(who));
    pointer_rows::point(alloc, world, who, gutter, mouse);
    world.end_step();
}

// Lets a client's window follow its cursor, and gives what it is shown. It is its turn meanwhile.
fn redraw<P: Pattern, T: Turn>(
    alloc: Global,
    world: &mut World<P, T>,
    who: u32,
) -> Result<Drawing, AllocError>
    requires own { IsStepOf who T.began }
    requires joined { is_joined who world.old.flat ≡ true }
    ensures draws { IfOk result (λ d. d ≡ drawing_of who (shown_to who world.old.flat)) }
    ensures follows { OnOk result (world.new.flat ≡ noted_drawn who (shown_to who world.old.flat)) }
    ensures err { OnErr result (world.new.flat ≡ shown_to who world.old.flat) }
{
    world.enter(who);
    let drawing = draw_model::redraw(alloc, world, who)?;
    note_drawn(alloc, world, who)?;
    world.end_step();
    Ok(drawing)
}

// Runs an event that is not refused. What the outside answers is added to the answers. A client that comes has joined then.
pub(crate) fn run_event<O: Outside, T: Turn>(
    alloc: Global,
    world: &mut World<O::P, T>,
    outside: &mut O,
    answers: &mut Answers,
    who: u32,
    event: &Event,
) -> Result<Output, AllocError>
    requires own { IsStepOf who T.began }
    requires runs { CanRun (kind_of event.now) who world.old.flat }
    requires fresh { answers.old ≡ [] }
    ensures gives { IfOk result (λ output. output ≡ output_of who event.now answers.new world.old.flat) }
    ensures leads { OnOk result (world.new.flat ≡ after_event who event.now answers.new world.old.flat) }
    ensures asked { OnOk result (AreAskedFor who event.now answers.new world.old.flat) }
    ensures honest { OnOk result (IsHonest answers.new (asked_by who event.now answers.new world.old.flat) (O.seen outside.old) (O.seen outside.new)) }
    ensures joined { OnOk result (is_join event.now ≡ true → is_joined who world.new.flat ≡ true) }
    ensures cut { OnErr result (IsStepLeft who event.now world.old.flat world.new.flat (O.seen outside.old) (O.seen outside.new)) }
{
    match event {
        Event::Join => Ok(Output {
            drawing: None,
            leaving: run_coming(alloc, world, outside, answers, who)?,
        }),
        Event::Key(key) => Ok(Output {
            drawing: None,
            leaving: run_key(alloc, world, outside, answers, who, *key)?,
        }),
        Event::Resize(size) => {
            resize(world, who, *size);
            Ok(Output::nothing())
        }
        Event::Scroll(lines) => {
            scroll(alloc, world, who, *lines);
            Ok(Output::nothing())
        }
        Event::Mouse(mouse) => {
            point(alloc, world, who, *mouse);
            Ok(Output::nothing())
        }
        Event::Refresh(_) => Ok(Output {
            drawing: Some(redraw(alloc, world, who)?),
            leaving: false,
        }),
        Event::Leave => {
            run_going(alloc, world, outside, answers, who)?;
            Ok(Output::nothing())
        }
    }
}
