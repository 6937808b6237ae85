ghost use Rattle.std.specs.Prelude.{◌≡◌, length};

/// For each passed link its token, 0 for a link that has not passed; for each token the last link that passed with it; for
/// each passed par, tensor and cut the last links of the moves before it; and how many links have passed since the start.
// Tokens are numbers with 0 for none, and each kind of mark is a row, since the theory's marks are such functions and
// the rows are handed on.
#[derive(Clone, Copy, PartialEq, Eq, Debug)]
pub struct Marking {
    pub token: [u16; 257],
    pub last: [u16; 257],
    pub first: [u16; 257],
    pub second: [u16; 257],
    pub passes: u16,
    ghost token_long: { length token ≡ 257 },
    ghost last_long: { length last ≡ 257 },
    ghost first_long: { length first ≡ 257 },
    ghost second_long: { length second ≡ 257 },
}

/// One token is on both premises of a tensor or a cut.
#[derive(Clone, Copy, PartialEq, Eq, Debug)]
pub struct Tangled;
