// What stands in a slot of the pool, and what a slot must be that is named. Outside of the file and of the slots it reads 0.
#![tactic(auto)]

ghost use Rattle.std.specs.Prelude.{◌≡◌};
ghost use Rattle.reads.specs.Promise.{Is, answered};
ghost use Rattle.text.specs.Text.{is_text};
ghost use Rattle.pool.specs.Kinds.{has};
ghost use Rattle.pool.specs.Pool.{slots};
ghost use Rattle.slot.specs.Slots.{cell, tag_of, field, bytes_of, in_range, of_kind, text_at, utf8_at, text_of, class_name, class_text, typed};
ghost use Rattle.slot.specs.Grammars.{good, simple};
ghost use Rattle.slot.specs.Shown.{shown};

use pool::Head;
use reads::{Answer, Reason, Refusal};

// What a text must be. No closure for the rule: with the name both `is_good` and `is_simple` are one table, and a contract says `good grammar`.
#[derive(Clone, Copy)]
pub enum Grammar {
    Unqualified,
    Binary,
    ModuleName,
    FieldDescriptor,
    MethodDescriptor,
}

// A pool as checks and lookups see it: the file, its major version, a table, and how many of its first cells are slots. The file has a
// lifetime of its own, so that what is handed out of it may outlive the table.
#[derive(Clone, Copy)]
pub struct Pool<'f, 't> {
    pub file: &'f [u8],
    pub major: u16,
    pub table: &'t [u32],
    pub slots: usize,
}

// Whether a bit set of kinds has a tag.
fn has_kind(set: u32, tag: u8) -> bool
    ensures { result ≡ has set tag }
{
    if 32 <= tag {
        return false;
    }
    set & (1u32 << tag) != 0
}

// Whether bytes are text, as they are where they are plain ASCII.
fn is_text(t: &[u8]) -> bool
    ensures { result ≡ is_text t.now }
{
    ascii::is_ascii(t) || text::is_text(t)
}

// Whether a text is of a grammar.
fn is_good(grammar: Grammar, t: &[u8]) -> bool
    ensures { result ≡ good grammar t.now }
{
    match grammar {
        Grammar::Unqualified => text::is_unqualified_name(t),
        Grammar::Binary => text::is_binary_name(t),
        Grammar::ModuleName => text::is_module_name(t),
        Grammar::FieldDescriptor => descriptors::is_field_descriptor(t),
        Grammar::MethodDescriptor => descriptors::is_method_descriptor(t),
    }
}

// Whether a text is a name in plain ASCII, of the grammar: most names are, and one pass tells.
fn is_simple(grammar: Grammar, t: &[u8]) -> bool
    ensures { result ≡ simple grammar t.now }
{
    match grammar {
        Grammar::Unqualified => ascii::is_ascii_name(t),
        Grammar::Binary => ascii::is_ascii_binary(t),
        Grammar::ModuleName | Grammar::FieldDescriptor | Grammar::MethodDescriptor => false,
    }
}

// That a text is a class name; the first byte of a bad one tells 11 from 10.
#[tactic(auto, unfolding(crate::specs::Slots::class_name))]
fn judge_class_name(t: &[u8], place: usize) -> Answer<()>
    ensures { Is answered (class_name t.now place) result }
{
    if text::is_binary_name(t) || descriptors::is_array_descriptor(t) {
        return Ok(());
    }
    if descriptors::stands_at(t, 0, b'[') {
        return Err(Reason::BadDescriptor.at(place));
    }
    Err(Reason::BadName.at(place))
}

impl<'f, 't> Pool<'f, 't> {
    // The pool of a head that was read, with the table that its entries were read into.
    pub fn of(file: &'f [u8], head: &Head, table: &'t [u32]) -> Pool<'f, 't>
        ensures { result ≡ record { file = file.entry; major = head.now.major; table = table.entry; slots = head.now.slots } }
    {
        Pool {
            file,
            major: head.major,
            table,
            slots: head.slots,
        }
    }

    // How many slots there are: no more than the table has cells.
    pub fn count(&self) -> usize
        ensures { result ≡ slots (shown self.now) }
    {
        self.slots.min(self.table.len())
    }

    // That m is a slot.
    pub fn check_range(&self, place: usize, m: usize) -> Answer<()>
        ensures { Is answered (in_range (shown self.now) place m) result }
    {
        if self.count() <= m {
            return Err(Reason::NoSlot.at(place));
        }
        Ok(())
    }

    // Cell n of the slots; 0 for what is no slot, as the definition has it.
    pub fn cell(&self, n: usize) -> u32
        ensures { result ≡ cell (shown self.now) n }
    {
        if self.count() <= n {
            return 0;
        }
        self.table[n]
    }

    // The tag of slot n; 0 for Zero, Unused and what is no slot. A number and no `Kind`: its clause says the tag.
    #[tactic(auto, unfolding(crate::specs::Slots::tag_of))]
    pub fn tag(&self, n: usize) -> u8
        ensures { result ≡ tag_of (shown self.now) n }
    {
        let c = self.cell(n);
        if c == 0 {
            return 0;
        }
        reads::byte_at(self.file, c as usize)
    }

    // The u2 that stands k bytes after slot n's tag byte.
    #[tactic(auto, unfolding(crate::specs::Slots::field))]
    pub fn field(&self, n: usize, k: u8) -> u16
        ensures { result ≡ field (shown self.now) n k }
    {
        let c = self.cell(n);
        reads::pair_at(self.file, c as usize + k as usize)
    }

    // The bytes of the Utf8 entry in slot m, a part of the file.
    #[tactic(auto, unfolding(crate::specs::Slots::bytes_of))]
    pub fn bytes(&self, m: usize) -> &'f [u8]
        ensures { result.now ≡ bytes_of (shown self.now) m }
    {
        let c = self.cell(m);
        let n = self.field(m, 1);
        reads::part(self.file, c as usize + 3, n as usize)
    }

    // That slot m is of an allowed kind.
    #[tactic(auto, unfolding(crate::specs::Slots::of_kind))]
    pub fn check_kind(&self, place: usize, allowed: u32, m: usize) -> Answer<()>
        ensures { Is answered (of_kind (shown self.now) place allowed m) result }
    {
        if has_kind(allowed, self.tag(m)) {
            return Ok(());
        }
        Err(Reason::OtherKind.at(place))
    }

    // That slot m is a Utf8 entry and text.
    #[tactic(auto, unfolding(crate::specs::Slots::text_at))]
    pub fn check_utf8(&self, place: usize, m: usize) -> Answer<()>
        ensures { Is answered (text_at (shown self.now) place m) result }
    {
        self.check_kind(place, pool::UTF8, m)?;
        if is_text(self.bytes(m)) {
            return Ok(());
        }
        Err(Reason::NoText.at(place))
    }

    // That an index names a slot, and that this is a Utf8 entry and text.
    #[tactic(auto, unfolding(crate::specs::Slots::utf8_at))]
    pub fn check_utf8_index(&self, place: usize, m: usize) -> Answer<()>
        ensures { Is answered (utf8_at (shown self.now) place m) result }
    {
        self.check_range(place, m)?;
        self.check_utf8(place, m)
    }

    // That slot m is text of a grammar, else the refusal of that number. Its bytes are found once.
    #[tactic(auto, unfolding(crate::specs::Slots::text_of, crate::specs::Slots::text_at))]
    pub fn check_text(&self, grammar: Grammar, number: u8, place: usize, m: usize) -> Answer<()>
        ensures { Is answered (text_of (good grammar) number (shown self.now) place m) result }
    {
        self.check_kind(place, pool::UTF8, m)?;
        let t = self.bytes(m);
        if is_simple(grammar, t) {
            return Ok(());
        }
        if !is_text(t) {
            return Err(Reason::NoText.at(place));
        }
        if is_good(grammar, t) {
            return Ok(());
        }
        Err(Refusal { number, place })
    }

    // That slot m is a class's name.
    #[tactic(auto, unfolding(crate::specs::Slots::class_text, crate::specs::Slots::class_name, crate::specs::Slots::text_at))]
    pub fn check_class_name(&self, place: usize, m: usize) -> Answer<()>
        ensures { Is answered (class_text (shown self.now) place m) result }
    {
        self.check_kind(place, pool::UTF8, m)?;
        let t = self.bytes(m);
        if ascii::is_ascii_binary(t) {
            return Ok(());
        }
        if is_text(t) {
            return judge_class_name(t, place);
        }
        Err(Reason::NoText.at(place))
    }

    // That slot m is a NameAndType whose descriptor is of a grammar: one step, where the Rust calls itself.
    #[tactic(auto, unfolding(crate::specs::Slots::typed))]
    pub fn check_typed(&self, grammar: Grammar, place: usize, m: usize) -> Answer<()>
        ensures { Is answered (typed (good grammar) (shown self.now) place m) result }
    {
        self.check_kind(place, pool::NAME_AND_TYPE, m)?;
        let d = self.field(m, 3);
        self.check_text(grammar, Reason::BadDescriptor as u8, place, d as usize)
    }
}
