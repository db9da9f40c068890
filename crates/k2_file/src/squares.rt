//! Squares of cells of a relation, above the leaves and within them, and their quarters.
ghost use Rattle.std.specs.Prelude.{◌≡◌, ◌<◌, ◌≤◌, ◌+◌, ◌-◌, ◌^◌};
ghost use Rattle.rel_model.specs.Worker.{Stands, HasQuad, quad_set, Keeps, MakesAtMost, MissesNothing};
ghost use Rattle.run_model.specs.Files.{file_height};
ghost use Rattle.k2_file.specs.Squares.{piece, rel_piece, quad_piece, window_set, square_set, IsWindow, IsLeafWindow, IsSquare, Shows, ShowsWindow, ShowsFour, ShowsFourWindows};

use crate::sides::small_side;
use crate::windows::{Window, has_cell};
use rel_model::engine_trait::Engine;
use rel_model::{Quad, Quarters, Rel};

/// A square of cells that is not empty. 24 bytes.
#[derive(Clone, Copy)]
pub enum Square {
    /// A quad above the leaves.
    Tree(Quad),
    /// A square within a leaf.
    Part(Window),
}

/// The leaf of a quad as a window.
fn leaf_window<E: Engine>(engine: &mut E, quad: Quad) -> Window
    requires stands { HasQuad (E.worker engine.old) quad }
    requires leaf { quad.height ≡ E.least }
    ensures window { IsLeafWindow E.least (quad_set (E.worker engine.old) quad) result }
    ensures keeps { Keeps (E.worker engine.old) (E.worker engine.new) }
    ensures room { MakesAtMost 0 (E.worker engine.old) (E.worker engine.new) }
    ensures misses { MissesNothing (E.worker engine.old) (E.worker engine.new) }
{
    let side = small_side(quad.height);
    Window {
        bits: engine.bits(quad),
        side,
        row: 0,
        col: 0,
    }
}

/// A window of a height, if it has a cell.
fn shown_window(window: Window, height: u8) -> Option<Square>
    requires window { IsWindow (2 ^ height) window }
    requires small { height ≤ 3 }
    ensures { ShowsWindow height (window_set height window) result }
{
    if has_cell(window, small_side(height)) {
        Some(Square::Part(window))
    } else {
        None
    }
}

/// A quad, if it has a cell.
fn shown_quad<E: Engine>(engine: &mut E, quad: Quad) -> Option<Square>
    requires stands { HasQuad (E.worker engine.old) quad }
    ensures shows { Shows (E.worker engine.new) E.least quad.height (quad_piece (E.worker engine.old) quad) result }
    ensures keeps { Keeps (E.worker engine.old) (E.worker engine.new) }
    ensures room { MakesAtMost 0 (E.worker engine.old) (E.worker engine.new) }
    ensures misses { MissesNothing (E.worker engine.old) (E.worker engine.new) }
{
    if quad.height == engine.bottom() {
        let window = leaf_window(engine, quad);
        return shown_window(window, quad.height);
    }
    if quad.is_empty() {
        return None;
    }
    Some(Square::Tree(quad))
}

/// The square of the file of a relation, if the relation has a pair.
pub fn first_square<E: Engine>(engine: &mut E, rel: Rel, height: u8) -> Option<Square>
    requires stands { Stands (E.worker engine.old) rel }
    requires height { height ≡ file_height rel.rows rel.cols }
    ensures shows { Shows (E.worker engine.new) E.least height (rel_piece (E.worker engine.old) height rel) result }
    ensures keeps { Keeps (E.worker engine.old) (E.worker engine.new) }
    ensures room { MakesAtMost 0 (E.worker engine.old) (E.worker engine.new) }
    ensures misses { MissesNothing (E.worker engine.old) (E.worker engine.new) }
{
    let quad = engine.root(rel);
    if quad.height == engine.bottom() {
        let window = leaf_window(engine, quad);
        return shown_window(window, height);
    }
    shown_quad(engine, quad)
}

/// The quarters of a quad that have cells: north-west, north-east, south-west and south-east.
fn quad_quarters<E: Engine>(
    engine: &mut E,
    quad: Quad,
) -> (
    Option<Square>,
    Option<Square>,
    Option<Square>,
    Option<Square>,
)
    requires stands { HasQuad (E.worker engine.old) quad }
    requires over { E.least < quad.height }
    ensures shows { ShowsFour (E.worker engine.new) E.least (quad.height - 1) (quad_piece (E.worker engine.old) quad)
        result }
    ensures keeps { Keeps (E.worker engine.old) (E.worker engine.new) }
    ensures room { MakesAtMost 0 (E.worker engine.old) (E.worker engine.new) }
    ensures misses { MissesNothing (E.worker engine.old) (E.worker engine.new) }
{
    let Quarters { nw, ne, sw, se } = engine.quarters(quad);
    let north_west = shown_quad(engine, nw);
    let north_east = shown_quad(engine, ne);
    let south_west = shown_quad(engine, sw);
    let south_east = shown_quad(engine, se);
    (north_west, north_east, south_west, south_east)
}

/// The window of a height that lies `below` rows below and `right` columns to the right of another, if it has a cell.
fn shown_quarter(window: Window, below: u8, right: u8, height: u8) -> Option<Square>
    requires window { IsWindow (2 ^ (height + 1)) window }
    requires small { height ≤ 2 }
    requires below { below ≤ 2 ^ height }
    requires right { right ≤ 2 ^ height }
    ensures { ShowsWindow height (piece (2 ^ height) below right (window_set (height + 1) window)) result }
{
    let quarter = Window {
        row: window.row + below,
        col: window.col + right,
        ..window
    };
    shown_window(quarter, height)
}

/// The quarters, of a height, of a window that have cells.
fn window_quarters(
    window: Window,
    height: u8,
) -> (
    Option<Square>,
    Option<Square>,
    Option<Square>,
    Option<Square>,
)
    requires window { IsWindow (2 ^ (height + 1)) window }
    requires small { height ≤ 2 }
    ensures { ShowsFourWindows height (window_set (height + 1) window) result }
{
    let half = small_side(height);
    (
        shown_quarter(window, 0, 0, height),
        shown_quarter(window, 0, half, height),
        shown_quarter(window, half, 0, height),
        shown_quarter(window, half, half, height),
    )
}

/// The quarters, of a height, of a square that have cells.
pub fn quarters_of<E: Engine>(
    engine: &mut E,
    square: Square,
    height: u8,
) -> (
    Option<Square>,
    Option<Square>,
    Option<Square>,
    Option<Square>,
)
    requires { IsSquare (E.worker engine.old) E.least (height + 1) square }
    ensures shows { ShowsFour (E.worker engine.new) E.least height
        (square_set (E.worker engine.old) (height + 1) square) result }
    ensures keeps { Keeps (E.worker engine.old) (E.worker engine.new) }
    ensures room { MakesAtMost 0 (E.worker engine.old) (E.worker engine.new) }
    ensures misses { MissesNothing (E.worker engine.old) (E.worker engine.new) }
{
    match square {
        Square::Tree(quad) => quad_quarters(engine, quad),
        Square::Part(window) => window_quarters(window, height),
    }
}
