// Lengths of four tags at once, without a table: the tags are put together in one number, and their fields are added side by side in it. A
// loop over such numbers has no load that waits for another, so the compiler takes four of them at a time.
#![tactic(auto)]

ghost use Rattle.std.specs.Prelude.{◌≡◌, ◌<◌};
ghost use Rattle.tag_words.specs.Words.{Bytewise, uppers_of, pairs_of, SumsHalves};

// The upper bit of each field, in the place of the lower.
pub fn uppers(fields: u32) -> u32
    ensures { Bytewise uppers_of fields result }
{
    fields / 2 & 0x55555555
}

// In each half of each byte the sum of its two fields.
pub fn pairs(fields: u32) -> u32
    ensures { Bytewise pairs_of fields result }
{
    (fields & 0x33333333) + (fields / 4 & 0x33333333)
}

// The sum of the halves of all bytes.
pub fn sum_of_halves(pairs: u32) -> u32
    ensures { SumsHalves pairs result × (result < 1024) }
{
    let bytes = (pairs & 0x0f0f0f0f) + (pairs / 16 & 0x0f0f0f0f);
    let two = bytes % 65536 + bytes / 65536;
    two % 256 + two / 256
}
