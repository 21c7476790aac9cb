// What the calls answer, and the refusals that are told from counts alone, shared by the three coders.
#![tactic(auto)]

ghost use Rattle.std.specs.Prelude.{◌≡◌, List, [], ◌∷◌, ℕ, ◌/◌, ◌≤◌, max, length};
ghost use Rattle.packed.specs.Format.{data_len};
ghost use Rattle.packed.specs.Stages.{widest_group, tail_takes, tail_copied};
ghost use Rattle.packed.specs.Refusals.{Lent, first_of, encoding_rows};
ghost use Rattle.answers.specs.Meaning.{refusal_number, verdict_number, lent_counts, group_rows, count_rows, data_rows, limit_row, missing_row};

// Why a call refused: the rows of the refusal table, in order.
#[derive(Clone, Copy, Debug, PartialEq, Eq)]
pub enum Refusal {
    NotFours,
    TooManyGroups,
    FewTags,
    LittleRoom,
    OtherTags,
    MissingData,
    TailOverrun,
}

impl Refusal {
    // The row's number in the refusal table, by which C knows the refusal.
    pub fn number(self) -> u8
        ensures { result ≡ refusal_number self }
    {
        match self {
            Refusal::NotFours => 1,
            Refusal::TooManyGroups => 2,
            Refusal::FewTags => 3,
            Refusal::LittleRoom => 4,
            Refusal::OtherTags => 5,
            Refusal::MissingData => 6,
            Refusal::TailOverrun => 7,
        }
    }
}

// What skipping answers: how many bytes were read, and the sum of the deltas.
#[derive(Clone, Copy, Debug, PartialEq, Eq)]
pub struct Skipped<E> {
    pub read: usize,
    pub sum: E,
}

// Where the first number stands that is wider than it need be: its group, and its position there, 0 to 3.
#[derive(Clone, Copy, Debug, PartialEq, Eq)]
pub struct Place {
    pub group: usize,
    pub position: usize,
}

const GROUP_LIMIT: usize = 16_777_216;

// Rows 1 and 2, for the calls that are lent values. groups is the count that stands against the limit.
fn groups_verdict(values: usize, groups: usize) -> Result<(), Refusal>
    ensures { verdict_number result ≡ first_of [] (lent_counts values groups) group_rows }
{
    if values % 4 != 0 {
        return Err(Refusal::NotFours);
    }
    limit_verdict(groups)
}

// Rows 1 to 4, for encoding. widest is the count of bytes of the widest group.
pub fn encode_verdict(
    values: usize,
    tags: usize,
    bytes: usize,
    widest: usize,
) -> Result<(), Refusal>
    requires { widest ≤ 32 }
    ensures { (t : List ℕ) (l : Lent) → l.values ≡ values → l.groups ≡ values / 4 → length l.tags ≡ tags → l.bytes ≡ bytes → widest_group t ≡ widest → verdict_number result ≡ first_of t l encoding_rows }
{
    let groups = values / 4;
    groups_verdict(values, groups)?;
    if tags < groups {
        return Err(Refusal::FewTags);
    }
    if bytes < widest * groups {
        return Err(Refusal::LittleRoom);
    }
    Ok(())
}

// Rows 1, 2 and 5, for decoding.
pub fn count_verdict(values: usize, tags: usize) -> Result<(), Refusal>
    ensures { (t : List ℕ) (l : Lent) → l.values ≡ values → l.groups ≡ max (values / 4) tags → length l.tags ≡ tags → verdict_number result ≡ first_of t l count_rows }
{
    let groups = values / 4;
    groups_verdict(values, groups.max(tags))?;
    if tags != groups {
        return Err(Refusal::OtherTags);
    }
    Ok(())
}

// Row 2, for the calls that are lent no values.
pub fn limit_verdict(groups: usize) -> Result<(), Refusal>
    ensures { (t : List ℕ) (l : Lent) → l.groups ≡ groups → verdict_number result ≡ first_of t l limit_row }
{
    if GROUP_LIMIT < groups {
        return Err(Refusal::TooManyGroups);
    }
    Ok(())
}

// Row 6, where total is the data_len of the tags.
pub fn missing_verdict(bytes: usize, total: usize) -> Result<(), Refusal>
    ensures { (t : List ℕ) (l : Lent) → l.bytes ≡ bytes → data_len t l.tags ≡ total → verdict_number result ≡ first_of t l missing_row }
{
    if bytes < total {
        return Err(Refusal::MissingData);
    }
    Ok(())
}

// Rows 6 and 7: the check on the tail is kept from the Rust's asserts.
pub fn data_verdict(bytes: usize, total: usize, copied: usize, taken: usize) -> Result<(), Refusal>
    ensures { (t : List ℕ) (l : Lent) → l.bytes ≡ bytes → data_len t l.tags ≡ total → tail_copied t l.tags l.bytes ≡ copied → tail_takes t l.tags l.bytes ≡ taken → verdict_number result ≡ first_of t l data_rows }
{
    missing_verdict(bytes, total)?;
    if copied < taken {
        return Err(Refusal::TailOverrun);
    }
    Ok(())
}
