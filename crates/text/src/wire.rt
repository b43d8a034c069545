// The memory of what unrefused calls wrote. The first MiB of the lent bytes holds what was written, one after another; behind
// it stands an entry for each that fitted: its number, and where it ends, as packed numbers. What did not fit has a number
// and no entry. Nothing is believed of the lent bytes: whatever stands there, a place outside them is never reached. Where they
// hold what was remembered, it is found under its number, and what is remembered is held as well.
ghost use Rattle.std.specs.Prelude.{◌≡◌, true, IfSome, unwrap_or, List, [], ◌∷◌, ◌++◌, ℕ, ◌+◌, ◌≤◌, ◌<◌, length};
ghost use Rattle.text.specs.Got.{fitting, got_of};
ghost use Rattle.text.specs.Memory.{entry_number, end_of, place_below, last_place, between_places, recalled};
ghost use Rattle.text.specs.Held.{Written, Holds, next_number, has_room, remembered};

use packed::number::number;
use packed::writing::{copy, put};

// How much is remembered.
const CONTENTS: usize = 1_048_576;

// The shortest thing written is a reply.
const SHORTEST: usize = 16;

const MOST_ENTRIES: usize = CONTENTS / SHORTEST;

// An entry is two packed numbers of this length.
const NUMBER_BYTES: usize = 8;

const ENTRY_BYTES: usize = 2 * NUMBER_BYTES;

// The largest number that fits an entry.
const LAST_NUMBER: u64 = 9_999_999_999_999_999;

// With fewer lent bytes nothing is remembered.
pub const WIRE_BYTES: usize = CONTENTS + MOST_ENTRIES * ENTRY_BYTES;

// How many were written, how many of them are kept, and how many bytes those take.
#[derive(Clone, Copy)]
pub struct Memory {
    pub numbered: u64,
    pub kept: usize,
    pub used: usize,
}

pub fn nothing() -> Memory
    ensures { (wire : List ℕ) → Holds result wire [] }
{
    Memory {
        numbered: 0,
        kept: 0,
        used: 0,
    }
}

// The number that the next one takes.
pub fn next_number(m: Memory) -> u64
    ensures { result ≡ next_number m.numbered }
{
    m.numbered.saturating_add(1)
}

// As much as before is kept, with one number more.
fn forgotten(m: Memory) -> Memory
    ensures { (wire : List ℕ) (ws : List Written) → Holds m wire ws → Holds result wire ws }
{
    Memory {
        numbered: next_number(m),
        kept: m.kept,
        used: m.used,
    }
}

// Whether so many bytes are kept.
fn has_room(m: Memory, size: usize, lent: usize) -> bool
    ensures { result ≡ has_room m size lent }
{
    let used = m.used;
    if CONTENTS < used {
        return false;
    }
    (WIRE_BYTES <= lent)
        & (m.kept < MOST_ENTRIES)
        & (size <= CONTENTS - used)
        & (m.numbered < LAST_NUMBER)
}

// With one more written and kept.
fn kept(m: Memory, written: &[u8], wire: &mut [u8]) -> Memory
    requires { has_room m (length written.now) (length wire.old) ≡ true }
    ensures { (ws : List Written) → Holds m wire.old ws → Holds result wire.new (ws ++ record { number = m.numbered + 1; bytes = written.now } ∷ []) }
{
    let used = m.used;
    let numbered = m.numbered + 1;
    let end = used + written.len();
    let entry = CONTENTS + m.kept * ENTRY_BYTES;
    copy(wire, used, written);
    put(wire, entry, NUMBER_BYTES, numbered);
    put(wire, entry + NUMBER_BYTES, NUMBER_BYTES, end as u64);
    Memory {
        numbered,
        kept: m.kept + 1,
        used: end,
    }
}

// With one more written, kept if there is room for it.
pub fn remember(m: Memory, written: &[u8], wire: &mut [u8]) -> Memory
    ensures { (ws : List Written) → Holds m wire.old ws → Holds result wire.new (remembered m written.now (length wire.old) ws) }
{
    if has_room(m, written.len(), wire.len()) {
        return kept(m, written, wire);
    }
    forgotten(m)
}

// Where to look for a number: entries stand in the order of their numbers, so that none stands behind the place that its
// number has.
fn last_place(kept: usize, wanted: u64) -> usize
    ensures place { result ≡ last_place kept wanted }
    ensures bound { result ≤ 65536 }
{
    if MOST_ENTRIES < kept {
        return 0;
    }
    wanted.min(kept as u64) as usize
}

// Lent bytes that are enough for all that is remembered.
#[derive(Clone, Copy)]
struct Wire<'a> {
    bytes: &'a [u8],
    ghost whole: { 2097152 ≤ length bytes.now },
}

impl Wire<'_> {
    // The number of an entry.
    #[tactic(auto, unfolding(crate::specs::Memory::entry_number))]
    fn entry_number(&self, i: usize) -> u64
        requires { i < 65536 }
        ensures { result ≡ entry_number self.now.bytes.now i }
    {
        number(self.bytes, CONTENTS + i * ENTRY_BYTES, NUMBER_BYTES)
    }

    // Where what the first `i` entries stand for ends; that is where the next begins.
    fn end_of(&self, i: usize) -> u64
        requires { i ≤ 65536 }
        ensures { result ≡ end_of self.now.bytes.now i }
    {
        if i == 0 {
            return 0;
        }
        let last = i - 1;
        number(
            self.bytes,
            CONTENTS + last * ENTRY_BYTES + NUMBER_BYTES,
            NUMBER_BYTES,
        )
    }

    // The entry of a number, if one has it. The library's search by halves would answer otherwise where the lent bytes are in no
    // order, and nothing is believed of them.
    fn find(&self, m: Memory, wanted: u64) -> Option<usize>
        ensures place { unwrap_or result 65536 ≡ place_below self.now.bytes.now wanted (last_place m.kept wanted) }
        ensures bound { IfSome result (λ i. i < 65536) }
    {
        for i in (0..last_place(m.kept, wanted)).rev() {
            let found = self.entry_number(i);
            if found <= wanted {
                return (found == wanted).then_some(i);
            }
        }
        None
    }

    // A copy of what stands between two places of the memory.
    fn copy_between(&self, from: u64, to: u64, bytes: &mut [u8]) -> Option<usize>
        ensures read { got_of result bytes.new ≡ fitting (length bytes.old) (between_places self.now.bytes.now from to) }
        ensures bound { IfSome result (λ n. n ≤ length bytes.old) }
    {
        if (CONTENTS as u64) < to || to < from {
            return None;
        }
        let kept = &self.bytes[from as usize..to as usize];
        if bytes.len() < kept.len() {
            return None;
        }
        copy(bytes, 0, kept);
        Some(kept.len())
    }
}

// A copy of what was written under a number.
pub fn recall(m: Memory, wanted: u64, wire: &[u8], bytes: &mut [u8]) -> Option<usize>
    ensures read { got_of result bytes.new ≡ fitting (length bytes.old) (recalled m wire.now wanted) }
    ensures bound { IfSome result (λ n. n ≤ length bytes.old) }
{
    if wire.len() < WIRE_BYTES {
        return None;
    }
    let wire = Wire { bytes: wire };
    let i = wire.find(m, wanted)?;
    wire.copy_between(wire.end_of(i), wire.end_of(i + 1), bytes)
}
