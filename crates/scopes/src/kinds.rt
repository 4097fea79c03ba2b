// How kinds join along a path. Kinds stay numbers, since document 01 gives its table over them and `join` answers for every number.
ghost use Rattle.std.specs.Prelude.{◌≡◌};
ghost use Rattle.hierarchy.specs.Tables.{join};

// The first step picks the row, the second the place in it.
const JOIN: [[u8; 5]; 5] = [
    [0, 0, 0, 0, 0],
    [0, 1, 0, 1, 0],
    [0, 4, 2, 2, 4],
    [0, 1, 2, 3, 4],
    [0, 4, 0, 4, 0],
];

// The kind that a step of the first kind and then one of the second join to; past 4 there is no kind, and the answer is 0.
pub fn join(first: usize, second: usize) -> u8
    ensures { result ≡ join first second }
{
    if first < 5 && second < 5 {
        return JOIN[first][second];
    }
    0
}
