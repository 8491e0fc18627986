// Document 01's fixed numbers: the eight step vectors, and beside them the thirteen pieces.
ghost use Rattle.std.specs.Prelude.{◌≡◌};
ghost use Rattle.outline.specs.Tables as tables;

// The steps along the sides, each east and north: document 01's d0 to d7.
pub const STEPS: [[i32; 2]; 8] = [
    [1, 0],
    [1, 1],
    [0, 1],
    [-1, 1],
    [-1, 0],
    [-1, -1],
    [0, -1],
    [1, -1],
];

// Document 01's pieces K1 to K13: for each the lengths of its eight sides along these steps, from (0, 0).
pub const PIECES: [[u32; 8]; 13] = [
    [1, 0, 0, 0, 1, 0, 0, 0],
    [0, 1, 0, 0, 0, 1, 0, 0],
    [0, 0, 1, 0, 0, 0, 1, 0],
    [0, 0, 0, 1, 0, 0, 0, 1],
    [1, 0, 1, 0, 0, 1, 0, 0],
    [1, 0, 0, 1, 0, 0, 1, 0],
    [0, 1, 0, 0, 1, 0, 1, 0],
    [0, 0, 1, 0, 1, 0, 0, 1],
    [2, 0, 0, 1, 0, 1, 0, 0],
    [0, 1, 0, 0, 2, 0, 0, 1],
    [0, 1, 0, 1, 0, 0, 2, 0],
    [0, 0, 2, 0, 0, 1, 0, 1],
    [0, 1, 0, 1, 0, 1, 0, 1],
];

// The sides of the piece in row k of the table, counted from 0; eight noughts past its end.
pub fn piece_sides(k: usize) -> [u32; 8]
    ensures { result ≡ tables.piece_sides k }
{
    if k < 13 {
        return PIECES[k];
    }
    [0; 8]
}
