//! What is wrong with a file, and which of two faults is told.

ghost use Rattle.std.specs.Prelude.{◌≡◌, ◌+◌, ◌≤◌, ◌^◌, length, Some};
ghost use Rattle.at_text.specs.Faults.{number_of, tier_of, comes_first as comes_before, first_fault as the_first};
ghost use Rattle.at_text.specs.Syntax.{stop_fault};

/// What is wrong at a place of a file, a line or a query.
#[derive(Clone, Copy, Debug, PartialEq, Eq)]
pub enum FaultKind {
    /// The bytes are no UTF-8 (RFC 3629).
    NotUtf8 = 1,
    /// A byte stands where no spelling can go on with it.
    Syntax = 2,
    /// The text ends where a spelling has to go on.
    Ended = 3,
    /// An object has a name for the second time (RFC 8259 section 4).
    Twin = 4,
    /// A value hasn't the form that its role asks for (RFC 7946).
    Form = 5,
    /// A line has fewer than two positions (RFC 7946 section 3.1.4).
    Short = 6,
    /// A ring has fewer than four positions, or isn't closed (RFC 7946 section 3.1.6).
    Ring = 7,
    /// A coordinate is no whole number of units.
    Scale = 8,
    /// A coordinate is too large.
    Range = 9,
}

impl FaultKind {
    /// The number of the kind, from 1 to 9, in the order in which the kinds are declared.
    pub fn number(self) -> u8
        ensures { result ≡ number_of self }
    {
        self as u8
    }

    /// The tier, from 1 to 4: encoding, syntax, equal names, and what values mean. A fault of a lesser tier
    /// is told before every fault of a greater one.
    pub fn tier(self) -> u8
        ensures { result ≡ tier_of self }
    {
        match self {
            FaultKind::NotUtf8 => 1,
            FaultKind::Syntax | FaultKind::Ended => 2,
            FaultKind::Twin => 3,
            FaultKind::Form
            | FaultKind::Short
            | FaultKind::Ring
            | FaultKind::Scale
            | FaultKind::Range => 4,
        }
    }
}

/// A kind of fault, and the byte offset from the file's first byte at which it stands.
#[derive(Clone, Copy, Debug, PartialEq, Eq)]
pub struct Fault {
    pub kind: FaultKind,
    pub at: u32,
}

impl Fault {
    /// Whether this fault is told rather than the other: by tiers, then by offsets, then by numbers.
    fn comes_first(self, other: Fault) -> bool
        ensures { result ≡ comes_before self other }
    {
        let tier = self.kind.tier();
        let other_tier = other.kind.tier();
        let number = self.kind.number();
        let other_number = other.kind.number();
        tier < other_tier
            || (tier == other_tier
                && (self.at < other.at || (self.at == other.at && number <= other_number)))
    }
}

/// The first of two faults by tiers, then by offsets, then by numbers. None yields to any fault.
pub fn first_fault(a: Option<Fault>, b: Option<Fault>) -> Option<Fault>
    ensures { result ≡ the_first a b }
{
    match (a, b) {
        (Some(first), Some(second)) => { if first.comes_first(second) { a } else { b } }
        (None, _) => b,
        (_, None) => a,
    }
}

/// The first of two faults, where both are there.
pub fn first_of_two(left: Fault, right: Fault) -> Fault
    ensures { Some result ≡ the_first (Some left) (Some right) }
{
    match first_fault(Some(left), Some(right)) {
        Some(first) => first,
        None => left,
    }
}

/// The fault of a text that is read up to a place, and whose first byte has the offset `base`: Syntax before a byte,
/// and Ended at the end.
pub fn stop_at(text: &[u8], base: u32, at: usize) -> Fault
    requires inside { at ≤ length text.now }
    requires short { base + length text.now ≤ 2 ^ 28 }
    ensures { result ≡ stop_fault base text.now at }
{
    let offset = base + at as u32;
    if at < text.len() {
        Fault {
            kind: FaultKind::Syntax,
            at: offset,
        }
    } else {
        Fault {
            kind: FaultKind::Ended,
            at: offset,
        }
    }
}
