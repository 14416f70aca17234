//! The kinds of ACEs: their type bytes and their letters (MS-DTYP 2.4.4.1 and 2.5.1.1).

ghost use Rattle.std.specs.Prelude.{◌≡◌, ◌≤◌, length, Some, IfSome, true};
ghost use Rattle.std.specs.List.{find};
ghost use Rattle.std.specs.Option.{option_copied};
ghost use Rattle.std.specs.Str.{str_eq_ignore_ascii_case};
ghost use Rattle.sd_kinds.specs.KindValues.{KindValues};
ghost use Rattle.sd_kinds.specs.Kinds.{is_object, kind_code, kind_entry, kind_letters, kind_named, kind_of, letters_of};

/// What an ACE does (MS-DTYP 2.4.4.1).
#[derive(Clone, Copy, Debug, PartialEq, Eq)]
pub enum AceKind {
    Allow,
    Deny,
    Audit,
    ObjectAllow,
    ObjectDeny,
    ObjectAudit,
    /// A mandatory label.
    Label,
}

/// The letters that a kind has at most.
const MOST_LETTERS: usize = 2;

/// A kind, its type byte, and the letters that name it in SDDL.
#[derive(Clone, Copy)]
pub struct KindEntry {
    pub kind: AceKind,
    pub code: u8,
    pub letters: [u8; MOST_LETTERS],
    /// The first `count` are its letters.
    pub count: usize,
}

macro_rules! kind {
    ($kind:ident, $code:literal, $letters:expr, $count:literal) => {
        KindEntry {
            kind: AceKind::$kind,
            code: $code,
            letters: $letters,
            count: $count,
        }
    };
}

/// Each kind has one row.
pub static KINDS: [KindEntry; 7] = [
    kind!(Allow, 0x00, [b'A', 0], 1),
    kind!(Deny, 0x01, [b'D', 0], 1),
    kind!(Audit, 0x02, [b'A', b'U'], 2),
    kind!(ObjectAllow, 0x05, [b'O', b'A'], 2),
    kind!(ObjectDeny, 0x06, [b'O', b'D'], 2),
    kind!(ObjectAudit, 0x07, [b'O', b'U'], 2),
    kind!(Label, 0x11, [b'M', b'L'], 2),
];

impl AceKind {
    /// Whether it may have GUIDs (MS-DTYP 2.4.4.3, 2.4.4.5 and 2.4.4.11).
    pub fn is_object(self) -> bool
        ensures { result ≡ is_object self }
    {
        matches!(
            self,
            AceKind::ObjectAllow | AceKind::ObjectDeny | AceKind::ObjectAudit
        )
    }

    /// The type byte (MS-DTYP 2.4.4.1).
    #[tactic(auto, unfolding(crate::specs::Kinds::kind_code))]
    #[inline(always)]
    pub fn code(self) -> u8
        ensures value { result ≡ kind_code self }
        // It is the byte of no other kind.
        ensures back { kind_of (kind_code self) ≡ Some self }
    {
        entry_of(self).map_or(0, |entry| entry.code)
    }

    /// The kind of a type byte. None where no kind has it.
    ///
    /// ```
    /// assert!(rt; AceKind::from_code(0x11) == Some(AceKind::Label));
    /// assert!(rt; AceKind::from_code(0x09) == None);
    /// ```
    #[tactic(auto, unfolding(crate::specs::KindValues::KindValues))]
    #[inline(always)]
    pub fn from_code(code: u8) -> Option<AceKind>
        ensures exact { result ≡ kind_of code }
        ensures back { IfSome result (λ kind. kind_code kind ≡ code) }
        // The type bytes and the letters of all kinds are those of MS-DTYP.
        ensures values { KindValues }
    {
        with_code(code)
    }

    /// The letters that name it in SDDL (MS-DTYP 2.5.1.1): one or two, in upper case.
    pub fn letters(self) -> &'static [u8]
        ensures value { result.now ≡ kind_letters self }
        // They read as it.
        ensures back { kind_named (kind_letters self) ≡ Some self }
        ensures some { 1 ≤ length result.now }
        ensures short { length result.now ≤ 2 }
    {
        kind_letters(self)
    }

    /// The kind that has these letters, in either case. None where no kind has them.
    ///
    /// ```
    /// assert!(rt; AceKind::from_text(b"OA") == Some(AceKind::ObjectAllow));
    /// assert!(rt; AceKind::from_text(b"XA") == None);
    /// ```
    #[tactic(auto, unfolding(crate::specs::Kinds::kind_named))]
    pub fn from_text(text: &[u8]) -> Option<AceKind>
        ensures exact { result ≡ kind_named text.now }
        ensures back { IfSome result (λ kind. str_eq_ignore_ascii_case (kind_letters kind) text.now ≡ true) }
    {
        let entry = with_letters(&KINDS, text)?;
        Some(entry.kind)
    }
}

// The rows are in the order of the kinds.
#[inline(always)]
#[tactic(auto, unfolding(crate::specs::Kinds::kind_entry))]
fn entry_of(kind: AceKind) -> Option<&'static KindEntry>
    ensures { option_copied result ≡ kind_entry kind }
{
    KINDS.get(kind as usize)
}

#[tactic(auto, unfolding(crate::specs::Kinds::kind_letters))]
fn kind_letters(kind: AceKind) -> &'static [u8]
    ensures { result.now ≡ kind_letters kind }
{
    entry_of(kind).map_or(&[], letters_of)
}

fn letters_of(entry: &KindEntry) -> &[u8]
    ensures { result.now ≡ letters_of entry.now }
{
    &entry.letters[..entry.count.min(MOST_LETTERS)]
}

// The rows one by one, and no loop over them: so it is compiled as a match on the numbers.
macro_rules! kind_in_rows {
    ($code:ident, $($row:literal),*) => {{
        $(
            if KINDS[$row].code == $code {
                return Some(KINDS[$row].kind);
            }
        )*
        None
    }};
}

#[inline(always)]
#[tactic(auto, unfolding(crate::specs::Kinds::kind_of))]
fn with_code(code: u8) -> Option<AceKind>
    ensures { result ≡ kind_of code }
{
    kind_in_rows!(code, 0, 1, 2, 3, 4, 5, 6)
}

fn with_letters(table: &[KindEntry], text: &[u8]) -> Option<KindEntry>
    ensures { result ≡ find (λ e. str_eq_ignore_ascii_case (letters_of e) text.now) table.now }
{
    table.iter().copied().find(|entry| is_named(entry, text))
}

fn is_named(entry: &KindEntry, text: &[u8]) -> bool
    ensures { result ≡ str_eq_ignore_ascii_case (letters_of entry.now) text.now }
{
    letters_of(entry).eq_ignore_ascii_case(text)
}
