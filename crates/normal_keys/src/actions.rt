//! The table of normal mode: what each key does.

ghost use Rattle.std.specs.Prelude.{◌≡◌};
ghost use Rattle.normal_keys.specs.Actions.{moves, seeks, asks, letter_action, alt_letter_action, sign_action, alt_sign_action, otherwise, reach_of, character_action, arrow_action, plain_action, control_action, alt_action, action_of};

use directions::Direction;
use edit_ops::{Indent, Put};
use kak_world::{Purpose, Use};
use key_names::{Base, Key};
use key_rows::{Bounds, Edit, Extent, InsertEntry, Shape};
use list_keys::{Cut, ListChange, Split};
use motion_keys::{CharSearch, LinePart, Motion, Reach, Until, WordKind, WordMove};
use undo_model::Travel;

/// What is done as often as the count says.
#[derive(Clone, Copy, PartialEq, Eq, Debug)]
pub enum Repeated {
    /// A motion of each selection.
    Moves(Motion, Reach),
    /// The selection behind the main one becomes the main one, or the one before it, round the ends.
    TurnsMain(Direction),
    /// A move in the history of the text.
    Travels(Travel),
    /// A move to the node of the undo tree with the next lower or the next higher number.
    GoesToNode(Direction),
    /// The n-th string of a register is put at the n-th selection.
    Puts(Put),
}

/// What a key does.
#[derive(Clone, Copy, PartialEq, Eq, Debug)]
pub enum Action {
    /// Nothing.
    Nothing,
    /// It goes on with the count.
    Digit(u32),
    /// It waits for the name of a register, which the next key uses.
    ChoosesRegister,
    /// It does something as often as the count says.
    Repeats(Repeated),
    /// A motion of each selection, once.
    MovesOnce(Motion, Reach),
    /// It waits for a character to go to.
    Seeks(CharSearch, Reach),
    /// It goes to the line that the count says, or waits for the name of a place.
    Goes(Reach),
    /// It waits for the name of an object, which is selected at each cursor.
    SelectsObject(Extent),
    /// It changes each selection by itself.
    Shapes(Shape),
    /// It changes the list.
    Lists(ListChange),
    /// It does something to the texts of the selections.
    Edits(Edit),
    /// It waits for a character that takes the place of each one in the selections.
    Fills,
    /// Insert mode.
    Inserts(InsertEntry),
    /// An empty prompt.
    Prompts(Purpose),
    /// The main selection becomes a match of the pattern that was looked for last, as often as the count says.
    StepsToMatch(Direction),
    /// A match of it is added as the new main selection, as often as the count says.
    AddsMatch(Direction),
    /// The text of the main selection becomes the pattern that was looked for last.
    Remembers(Bounds),
    /// The keys that are struck from now on are recorded as a macro, or no more.
    Records,
    /// They are recorded no more.
    EndsRecording,
    /// A macro is run, as often as the count says.
    Plays,
}

// A motion of each selection, as often as the count says.
fn moves(motion: Motion, reach: Reach) -> Action
    ensures { result ≡ moves motion reach }
{
    Action::Repeats(Repeated::Moves(motion, reach))
}

// Looking for a character, onto it or up to it.
fn seeks(direction: Direction, until: Until, reach: Reach) -> Action
    ensures { result ≡ seeks direction until reach }
{
    Action::Seeks(CharSearch { direction, until }, reach)
}

// A prompt for a pattern, of which a use is made.
fn asks(wanted: Use) -> Action
    ensures { result ≡ asks wanted }
{
    Action::Prompts(Purpose::Pattern(wanted))
}

// What a small letter does, and its capital.
fn letter_action(c: char, reach: Reach) -> Action
    ensures { result ≡ letter_action c reach }
{
    match c {
        'h' => moves(Motion::Step(Direction::Backward), reach),
        'j' => moves(Motion::Line(Direction::Forward), reach),
        'k' => moves(Motion::Line(Direction::Backward), reach),
        'l' => moves(Motion::Step(Direction::Forward), reach),
        'w' => moves(Motion::Word(WordMove::Next, WordKind::Small), reach),
        'e' => moves(Motion::Word(WordMove::End, WordKind::Small), reach),
        'b' => moves(Motion::Word(WordMove::Back, WordKind::Small), reach),
        'f' => seeks(Direction::Forward, Until::On, reach),
        't' => seeks(Direction::Forward, Until::Before, reach),
        'g' => Action::Goes(reach),
        _ => Action::Nothing,
    }
}

// The same with alt.
fn alt_letter_action(c: char, reach: Reach) -> Action
    ensures { result ≡ alt_letter_action c reach }
{
    match c {
        'w' => moves(Motion::Word(WordMove::Next, WordKind::Big), reach),
        'e' => moves(Motion::Word(WordMove::End, WordKind::Big), reach),
        'b' => moves(Motion::Word(WordMove::Back, WordKind::Big), reach),
        'f' => seeks(Direction::Backward, Until::On, reach),
        't' => seeks(Direction::Backward, Until::Before, reach),
        'h' => Action::MovesOnce(Motion::Along(LinePart::ToStart), reach),
        'l' => Action::MovesOnce(Motion::Along(LinePart::ToEnd), reach),
        _ => Action::Nothing,
    }
}

// What a character does that stands for nothing else with shift.
fn sign_action(c: char) -> Action
    ensures { result ≡ sign_action c }
{
    match c {
        'x' => Action::Shapes(Shape::Lines),
        'm' => Action::MovesOnce(Motion::Bracket, Reach::Select),
        ';' => Action::Shapes(Shape::Cursor),
        '%' => Action::Lists(ListChange::WholeText),
        ',' => Action::Lists(ListChange::MainAlone),
        '_' => Action::Lists(ListChange::Cut(Cut::Trimmed)),
        'C' => Action::Lists(ListChange::Copied(Direction::Forward)),
        '(' => Action::Repeats(Repeated::TurnsMain(Direction::Backward)),
        ')' => Action::Repeats(Repeated::TurnsMain(Direction::Forward)),
        'u' => Action::Repeats(Repeated::Travels(Travel::Undo)),
        'U' => Action::Repeats(Repeated::Travels(Travel::Redo)),
        'd' => Action::Edits(Edit::Cut),
        'y' => Action::Edits(Edit::Keep),
        'R' => Action::Edits(Edit::Replace),
        'r' => Action::Fills,
        '>' => Action::Edits(Edit::Indent(Indent::More)),
        '<' => Action::Edits(Edit::Indent(Indent::Less)),
        '&' => Action::Edits(Edit::Align),
        'p' => Action::Repeats(Repeated::Puts(Put::After)),
        'P' => Action::Repeats(Repeated::Puts(Put::Before)),
        'i' => Action::Inserts(InsertEntry::Before),
        'a' => Action::Inserts(InsertEntry::Behind),
        'I' => Action::Inserts(InsertEntry::FirstLine),
        'A' => Action::Inserts(InsertEntry::LastNewline),
        'o' => Action::Inserts(InsertEntry::Open(Direction::Forward)),
        'O' => Action::Inserts(InsertEntry::Open(Direction::Backward)),
        'c' => Action::Inserts(InsertEntry::Cut),
        '"' => Action::ChoosesRegister,
        ':' => Action::Prompts(Purpose::Commands),
        's' => asks(Use::Select),
        'S' => asks(Use::Split),
        '/' => asks(Use::Search(Direction::Forward)),
        '?' => asks(Use::Reach(Direction::Forward)),
        'n' => Action::StepsToMatch(Direction::Forward),
        'N' => Action::AddsMatch(Direction::Forward),
        '*' => Action::Remembers(Bounds::AtWordEnds),
        'Q' => Action::Records,
        'q' => Action::Plays,
        _ => Action::Nothing,
    }
}

// The same with alt.
fn alt_sign_action(c: char) -> Action
    ensures { result ≡ alt_sign_action c }
{
    match c {
        'x' => Action::Lists(ListChange::Cut(Cut::WholeLines)),
        ';' => Action::Shapes(Shape::Turned),
        ':' => Action::Shapes(Shape::Straight),
        ',' => Action::Lists(ListChange::WithoutMain),
        'C' => Action::Lists(ListChange::Copied(Direction::Backward)),
        'd' => Action::Edits(Edit::Erase),
        'j' => Action::Edits(Edit::Join),
        ')' => Action::Edits(Edit::Rotate(Direction::Forward)),
        '(' => Action::Edits(Edit::Rotate(Direction::Backward)),
        'c' => Action::Inserts(InsertEntry::Erase),
        'i' => Action::SelectsObject(Extent::Inner),
        'a' => Action::SelectsObject(Extent::Around),
        's' => Action::Lists(ListChange::Split(Split::AtLineEnds)),
        'S' => Action::Lists(ListChange::Split(Split::IntoEnds)),
        'k' => asks(Use::Keep),
        'K' => asks(Use::Drop),
        '/' => asks(Use::Search(Direction::Backward)),
        '?' => asks(Use::Reach(Direction::Backward)),
        'n' => Action::StepsToMatch(Direction::Backward),
        'N' => Action::AddsMatch(Direction::Backward),
        '*' => Action::Remembers(Bounds::Anywhere),
        _ => Action::Nothing,
    }
}

// One action, or another where that does nothing.
fn otherwise(first: Action, second: Action) -> Action
    ensures { result ≡ otherwise first second }
{
    match first {
        Action::Nothing => second,
        _ => first,
    }
}

// A capital extends.
fn reach_of(c: char) -> Reach
    ensures { result ≡ reach_of c }
{
    if c.is_ascii_uppercase() {
        Reach::Extend
    } else {
        Reach::Select
    }
}

// What a character does without modifiers.
fn character_action(c: char) -> Action
    ensures { result ≡ character_action c }
{
    match c.to_digit(10) {
        Some(digit) => Action::Digit(digit),
        None => otherwise(
            letter_action(c.to_ascii_lowercase(), reach_of(c)),
            sign_action(c),
        ),
    }
}

// What the keys do that go along the text.
fn arrow_action(base: Base, reach: Reach) -> Action
    ensures { result ≡ arrow_action base reach }
{
    match base {
        Base::Left => moves(Motion::Step(Direction::Backward), reach),
        Base::Right => moves(Motion::Step(Direction::Forward), reach),
        Base::Down => moves(Motion::Line(Direction::Forward), reach),
        Base::Up => moves(Motion::Line(Direction::Backward), reach),
        Base::Home => Action::MovesOnce(Motion::Along(LinePart::ToStart), reach),
        Base::End => Action::MovesOnce(Motion::Along(LinePart::ToEnd), reach),
        _ => Action::Nothing,
    }
}

// What a key does without modifiers.
fn plain_action(base: Base) -> Action
    ensures { result ≡ plain_action base }
{
    match base {
        Base::Char(c) => character_action(c),
        Base::PageDown => Action::MovesOnce(Motion::Page(Direction::Forward), Reach::Select),
        Base::PageUp => Action::MovesOnce(Motion::Page(Direction::Backward), Reach::Select),
        Base::Esc => Action::EndsRecording,
        _ => arrow_action(base, Reach::Select),
    }
}

// What a key does with control alone.
fn control_action(base: Base) -> Action
    ensures { result ≡ control_action base }
{
    match base {
        Base::Char('f') => Action::MovesOnce(Motion::Page(Direction::Forward), Reach::Select),
        Base::Char('b') => Action::MovesOnce(Motion::Page(Direction::Backward), Reach::Select),
        Base::Char('k') => Action::Repeats(Repeated::GoesToNode(Direction::Backward)),
        Base::Char('j') => Action::Repeats(Repeated::GoesToNode(Direction::Forward)),
        _ => Action::Nothing,
    }
}

// What a key does with alt alone.
fn alt_action(base: Base) -> Action
    ensures { result ≡ alt_action base }
{
    match base {
        Base::Char(c) => otherwise(
            alt_letter_action(c.to_ascii_lowercase(), reach_of(c)),
            alt_sign_action(c),
        ),
        _ => Action::Nothing,
    }
}

// What a key does, where no other key waits for it.
#[tactic(auto, unfolding(crate::specs::Actions::action_of))]
pub fn action_of(key: Key) -> Action
    ensures { result ≡ action_of key }
{
    if key.control {
        return if key.alt || key.shift {
            Action::Nothing
        } else {
            control_action(key.base)
        };
    }
    if key.alt {
        return if key.shift {
            Action::Nothing
        } else {
            alt_action(key.base)
        };
    }
    if key.shift {
        return arrow_action(key.base, Reach::Extend);
    }
    plain_action(key.base)
}
