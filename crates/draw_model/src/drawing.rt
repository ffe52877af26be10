//! What a client is shown.

ghost use Rattle.std.specs.Prelude.{◌≡◌, ◌+◌, ◌<◌, ◌≤◌, ◌^◌, true, IfOk, OnErr};
ghost use Rattle.text_model.specs.Texts.{IsPlace};
ghost use Rattle.window_view.specs.Views.{window_seen};
ghost use Rattle.kak_world.specs.Flat.{acts, is_joined, shown_of, text_of, sels_of, tabstop_of};
ghost use Rattle.line_painting.specs.Lines.{drawn_lines};
ghost use Rattle.draw_model.specs.Drawings.{main_cursor, main_column, main_cells, prompt_column, cursor_drawn, gutter_for, looks_for, drawing_of, after_following};

use crate::boxes::draw_info;
use crate::status::{draw_status, mode_chars, prompt_name, run_line};
use drawings::{Cursor, Drawing, DrawnLines};
use edit_line::EditLine;
use highlight_paint::Viewer;
use kak_text::{Coord, cells};
use kak_world::{Mode, Purpose, Turn, World};
use line_painting::{Scene, WindowFrame, draw_lines, part_in, text_part};
use regex_ports::Pattern;
use std::alloc::{AllocError, Global};
use window_view::{Tabstop, Window, cell_of};

// So many cells before the cursor of a prompt are too many.
const MAX_PROMPT_CELLS: u32 = 2_147_483_648;

// Where the main cursor stands, the display column there, how many cells its character has, and how many number cells stand
// before the lines.
#[derive(Clone, Copy, Debug)]
struct MainCursor {
    at: Coord,
    column: u32,
    cells: u32,
    gutter: u32,
}

// The coordinate of the main cursor.
fn cursor_at<P: Pattern, T: Turn>(world: &World<P, T>, who: u32) -> Coord
    requires { acts who world.now.flat ≡ true }
    ensures value { result ≡ main_cursor (text_of who world.now.flat) (sels_of who world.now.flat) }
    ensures place { IsPlace (text_of who world.now.flat) result }
{
    let sels = world.sels(who);
    sels.at(sels.main()).cursor()
}

// Where a client looks.
fn viewer_of<P: Pattern, T: Turn>(world: &World<P, T>, who: u32) -> Viewer
    requires { is_joined who world.now.flat ≡ true }
    ensures buffer { result.buffer ≡ shown_of who world.now.flat }
    ensures client { result.client ≡ who }
{
    Viewer {
        buffer: world.shown_number(who),
        client: who,
    }
}

/// How many number cells stand before the lines that a client sees, with its tab stops.
pub fn gutter_of<P: Pattern, T: Turn>(world: &World<P, T>, who: u32, tabstop: Tabstop) -> u32
    requires joined { is_joined who world.now.flat ≡ true }
    requires tabstop { tabstop.columns ≡ tabstop_of who world.now.flat }
    ensures value { result ≡ gutter_for who world.now.flat }
    ensures small { result ≤ 2 ^ 31 }
{
    let viewer = viewer_of(world, who);
    let count = world.lines(who).line_count();
    world.highlighters().gutter(viewer, count, tabstop)
}

// Finds the main cursor.
#[tactic(auto, using(kak_world::proofs::WorldLaws::acts_joined))]
fn find_cursor<P: Pattern, T: Turn>(world: &World<P, T>, who: u32, tabstop: Tabstop) -> MainCursor
    requires acts { acts who world.now.flat ≡ true }
    requires tabstop { tabstop.columns ≡ tabstop_of who world.now.flat }
    ensures at { result.at ≡ main_cursor (text_of who world.now.flat) (sels_of who world.now.flat) }
    ensures column { result.column ≡ main_column tabstop.columns (text_of who world.now.flat) (sels_of who world.now.flat) }
    ensures cells { result.cells ≡ main_cells tabstop.columns (text_of who world.now.flat) (sels_of who world.now.flat) }
    ensures gutter { result.gutter ≡ gutter_for who world.now.flat }
    ensures small { result.column + result.cells < 2 ^ 31 }
    ensures narrow { result.gutter ≤ 2 ^ 31 }
{
    let at = cursor_at(world, who);
    let line = world.lines(who).line(at.line as usize);
    let column = cell_of(line, at.column as usize, tabstop);
    MainCursor {
        at,
        column,
        cells: cells(line.at(at.column as usize), column, tabstop.columns),
        gutter: gutter_of(world, who, tabstop),
    }
}

// How many cells stand before the cursor of a prompt, of the characters before it. 2^31 and more count as want of memory,
// and nothing else does.
fn prompt_cursor(purpose: Purpose, before: &[char], tabstop: Tabstop) -> Result<u32, AllocError>
    ensures value { IfOk result (λ column. column ≡ prompt_column tabstop.columns purpose before.now) }
    ensures wide { OnErr result (2 ^ 31 ≤ prompt_column tabstop.columns purpose before.now) }
{
    let mut column = prompt_name(purpose).len() as u32;
    for c in before {
        if column >= MAX_PROMPT_CELLS {
            return Err(AllocError);
        }
        column += cells(*c, column, tabstop.columns);
    }
    Ok(column)
}

// Where the cursor stands. It takes no memory, and tells want of it for a prompt that is too wide alone.
fn cursor_of(
    mode: Mode,
    main: MainCursor,
    window: Window,
    purpose: Purpose,
    prompt: &EditLine,
    tabstop: Tabstop,
) -> Result<Cursor, AllocError>
    requires column { main.column + main.cells < 2 ^ 31 }
    requires gutter { main.gutter ≤ 2 ^ 31 }
    ensures value { IfOk result (λ cursor. cursor
        ≡ cursor_drawn tabstop.columns mode main.at.line main.column (window_seen window) main.gutter purpose prompt.now) }
    ensures wide { OnErr result ((mode ≡ Mode.Prompt) × (2 ^ 31 ≤ prompt_column tabstop.columns purpose prompt.now.before)) }
{
    match mode {
        Mode::Prompt => Ok(Cursor {
            prompt: true,
            line: 0,
            column: prompt_cursor(purpose, prompt.before(), tabstop)?,
        }),
        Mode::Normal | Mode::Insert => Ok(Cursor {
            prompt: false,
            line: main.at.line.saturating_sub(window.top),
            column: main.gutter + main.column.saturating_sub(window.left),
        }),
    }
}

// Draws the lines that a client's window shows.
#[tactic(auto, using(kak_world::proofs::WorldLaws::acts_joined))]
fn draw_window<P: Pattern, T: Turn>(
    alloc: Global,
    world: &World<P, T>,
    who: u32,
    tabstop: Tabstop,
    main: MainCursor,
) -> Result<DrawnLines, AllocError>
    requires acts { acts who world.now.flat ≡ true }
    requires tabstop { tabstop.columns ≡ tabstop_of who world.now.flat }
    requires at { main.at ≡ main_cursor (text_of who world.now.flat) (sels_of who world.now.flat) }
    requires gutter { main.gutter ≡ gutter_for who world.now.flat }
    ensures { IfOk result (λ lines. lines ≡ drawn_lines (looks_for who world.now.flat) (text_of who world.now.flat)) }
{
    let lines = world.lines(who);
    let window = text_part(world.window(who), main.gutter);
    let viewer = viewer_of(world, who);
    let highlighters = world.highlighters();
    let part = part_in(lines, window);
    let grounds = highlighters.paint(alloc, viewer, part, world.faces())?;
    let numbers = highlighters.numbers(alloc, viewer)?;
    let scene = Scene {
        lines,
        sels: world.sels(who),
        frame: WindowFrame {
            window,
            tabstop,
            signs: highlighters.has_signs(viewer),
        },
        palette: world.faces().palette(),
        numbers: numbers.as_slice(),
        cursor_line: main.at.line,
    };
    draw_lines(alloc, scene, grounds)
}

// Draws what a client is shown, whose window has followed its main cursor.
#[tactic(auto, using(kak_world::proofs::WorldLaws::acts_joined))]
fn draw<P: Pattern, T: Turn>(
    alloc: Global,
    world: &World<P, T>,
    who: u32,
    tabstop: Tabstop,
    main: MainCursor,
) -> Result<Drawing, AllocError>
    requires acts { acts who world.now.flat ≡ true }
    requires tabstop { tabstop.columns ≡ tabstop_of who world.now.flat }
    requires at { main.at ≡ main_cursor (text_of who world.now.flat) (sels_of who world.now.flat) }
    requires column { main.column ≡ main_column tabstop.columns (text_of who world.now.flat) (sels_of who world.now.flat) }
    requires gutter { main.gutter ≡ gutter_for who world.now.flat }
    requires small { main.column + main.cells < 2 ^ 31 }
    requires narrow { main.gutter ≤ 2 ^ 31 }
    ensures { IfOk result (λ drawing. drawing ≡ drawing_of who world.now.flat) }
{
    let own = world.own(who);
    let palette = world.faces().palette();
    let name = world.buffer_name(who);
    let sels = world.sels(who);
    let said = mode_chars(alloc, name, main.at, own.mode, sels, world.number(who))?;
    let window = world.window(who);
    let (mode, purpose) = (own.mode, own.purpose);
    Ok(Drawing {
        first: !own.drawn,
        lines: draw_window(alloc, world, who, tabstop, main)?,
        default_face: palette.default,
        padding_face: palette.buffer_padding,
        status: draw_status(alloc, palette, mode, &own.status, purpose, &own.prompt)?,
        mode_line: run_line(alloc, said.as_slice(), palette.status_line)?,
        status_face: palette.status_line,
        cursor: cursor_of(mode, main, window, purpose, &own.prompt, tabstop)?,
        info: draw_info(alloc, &own.sent, &own.info, palette.information)?,
    })
}

/// Lets a client's window follow its main cursor, by the least amount, and draws what the client then is shown. It costs the
/// lines of the window up to its right side with the selections up to its end, and not the text, and a prompt whole. An
/// `Err` says that memory ran out, behind the window's move; a prompt with 2^31 cells or more before its cursor counts as
/// that too.
#[tactic(auto, using(kak_world::proofs::WorldLaws::world_laws, crate::proofs::CursorLemmas::tabstop_corner, crate::proofs::CursorLemmas::gutter_corner))]
pub fn redraw<P: Pattern, T: Turn>(
    alloc: Global,
    world: &mut World<P, T>,
    who: u32,
) -> Result<Drawing, AllocError>
    requires { acts who world.old.flat ≡ true }
    ensures draws { IfOk result (λ drawing. drawing ≡ drawing_of who (after_following who world.old.flat)) }
    ensures follows { world.new.flat ≡ after_following who world.old.flat }
{
    let tabstop = world.tabstop(who);
    let main = find_cursor(world, who, tabstop);
    let (line, gutter) = (main.at.line, main.gutter);
    world.follow(who, line, main.column, main.cells, gutter);
    draw(alloc, world, who, tabstop, main)
}
