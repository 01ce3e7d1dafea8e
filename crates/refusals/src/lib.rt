// Why an entry gives no answer, for every entry: the causes, and the number of each with the place that comes with it.
#![tactic(auto)]

ghost use Rattle.std.specs.Prelude.{◌≡◌, length, map};
ghost use Rattle.refusals.specs.Refusals.{number, place_of, room_for, output_by};
ghost use Rattle.refusals.specs.Made.{Makes};

// The causes of document 01's table, in its order; for a faulty line, with its first byte. Then those of document 02: of a text and a list
// of tokens (a), of a line that is put or withdrawn (c). `number` gives the number of each, `place` the place.
#[derive(Clone, Copy, Debug, PartialEq, Eq)]
pub enum Refusal {
    WordTooLong,
    WordNotUtf8,
    WordForbidden,
    SheetTooLong,
    SheetNoForm(usize),
    SheetNotAbove(usize),
    TooManyReadings,
    OutputTooShort,
    TextTooLong,
    TextNotUtf8,
    ListTooShort,
    NoSingleForm,
    NothingToWithdraw,
    NoRoom,
}

impl Refusal {
    // Its number.
    pub fn number(self) -> usize
        ensures { result ≡ number self }
    {
        match self {
            Refusal::WordTooLong => 1,
            Refusal::WordNotUtf8 => 2,
            Refusal::WordForbidden => 3,
            Refusal::SheetTooLong => 4,
            Refusal::SheetNoForm(_) => 5,
            Refusal::SheetNotAbove(_) => 6,
            Refusal::TooManyReadings => 7,
            Refusal::OutputTooShort => 8,
            Refusal::TextTooLong => 9,
            Refusal::TextNotUtf8 => 2,
            Refusal::ListTooShort => 10,
            Refusal::NoSingleForm => 11,
            Refusal::NothingToWithdraw => 12,
            Refusal::NoRoom => 13,
        }
    }

    // The place that comes with it, if one does: the first byte of the faulty line.
    pub fn place(self) -> Option<usize>
        ensures { result ≡ place_of self }
    {
        match self {
            Refusal::SheetNoForm(at) => Some(at),
            Refusal::SheetNotAbove(at) => Some(at),
            _ => None,
        }
    }
}

// Stores what is made of each row at the front of a list, and gives how many they are; a list that is shorter is refused and left.
pub fn fill<S: Copy, T: Copy, F: Fn(S) -> T>(
    rows: &[S],
    out: &mut [T],
    made: F,
) -> Result<usize, Refusal>
    requires { F.IsAlwaysCallable made }
    ensures size { result ≡ room_for (length rows.now) (length out.old) }
    ensures left { (of : S → T) → Makes (F.post made) of → out.new ≡ output_by result (map of rows.now) out.old }
{
    let n = rows.len();
    if out.len() < n {
        return Err(Refusal::OutputTooShort);
    }
    for (i, &row) in rows.iter().enumerate() {
        out[i] = made(row);
    }
    Ok(n)
}
