//! A layout in numbers of 64 bits: sizes that are too large are cut for who asks for a size, and wrap for who adds offsets.
ghost use Rattle.std.specs.Prelude.{◌≡◌, ◌%◌, ◌^◌, ◌<◌, Some};
ghost use Rattle.ir_core.specs.Layout.{aligned};
ghost use Rattle.ir_tables.specs.Laid.{align_bytes, cut, scalar_laid, integer_laid, array_laid, empty_laid, greater, with_field, padded};

/// The number whose multiples a value stands at.
#[derive(Clone, Copy)]
pub(crate) enum Align {
    One,
    Two,
    Four,
    Eight,
}

impl Align {
    /// In bytes.
    pub(crate) fn bytes(self) -> u64
        ensures value { result ≡ align_bytes self }
        ensures positive { 0 < result }
    {
        match self {
            Align::One => 1,
            Align::Two => 2,
            Align::Four => 4,
            Align::Eight => 8,
        }
    }

    /// The greater one of two.
    fn greater(self, other: Align) -> Align
        ensures { result ≡ greater self other }
    {
        match (self, other) {
            (Align::Eight, _) | (Align::Four, Align::Eight) => Align::Eight,
            (Align::Four, _) => Align::Four,
            (Align::Two, Align::One) => Align::Two,
            (Align::Two | Align::One, other) => other,
        }
    }

    /// The least multiple that isn't below `end`; 2^64-1 where that is too large.
    fn round_cut(self, end: u64) -> u64
        ensures { result ≡ cut (aligned end (align_bytes self)) }
    {
        let step = self.bytes();
        match end.checked_add(step - 1) {
            None => u64::MAX,
            Some(raised) => raised / step * step,
        }
    }

    /// The least multiple that isn't below `end`, modulo 2^64.
    pub(crate) fn round(self, end: u64) -> u64
        ensures { result ≡ aligned end (align_bytes self) % 2 ^ 64 }
    {
        let step = self.bytes();
        match end.checked_add(step - 1) {
            None => 0,
            Some(raised) => raised / step * step,
        }
    }
}

/// What is kept of a layout.
#[derive(Clone, Copy)]
pub(crate) struct Laid {
    /// How many bytes a value takes; 2^64-1 for more than that.
    pub(crate) size: u64,
    /// How many bytes a value takes, modulo 2^64.
    pub(crate) low: u64,
    pub(crate) align: Align,
}

impl Laid {
    /// A value of so many bytes at multiples of that.
    pub(crate) fn scalar(align: Align) -> Laid
        ensures { result ≡ scalar_laid align }
    {
        let size = align.bytes();
        Laid {
            size,
            low: size,
            align,
        }
    }

    /// An integer of so many bits; none of another width than 1, 8, 16, 32 and 64.
    pub(crate) fn integer(width: u32) -> Option<Laid>
        ensures { result ≡ integer_laid width }
    {
        match width {
            1 | 8 => Some(Laid::scalar(Align::One)),
            16 => Some(Laid::scalar(Align::Two)),
            32 => Some(Laid::scalar(Align::Four)),
            64 => Some(Laid::scalar(Align::Eight)),
            _ => None,
        }
    }

    /// An array of so many of these.
    pub(crate) fn times(self, count: u64) -> Laid
        ensures { result ≡ array_laid count self }
    {
        Laid {
            size: count.saturating_mul(self.size),
            low: count.wrapping_mul(self.low),
            align: self.align,
        }
    }

    /// A struct without fields.
    pub(crate) fn empty() -> Laid
        ensures { result ≡ empty_laid }
    {
        Laid {
            size: 0,
            low: 0,
            align: Align::One,
        }
    }

    /// A struct with one more field, not yet padded.
    pub(crate) fn with(self, field: Laid) -> Laid
        ensures { result ≡ with_field self field }
    {
        Laid {
            size: field.align.round_cut(self.size).saturating_add(field.size),
            low: field.align.round(self.low).wrapping_add(field.low),
            align: self.align.greater(field.align),
        }
    }

    /// The struct with the padding at its end.
    pub(crate) fn padded(self) -> Laid
        ensures { result ≡ padded self }
    {
        Laid {
            size: self.align.round_cut(self.size),
            low: self.align.round(self.low),
            align: self.align,
        }
    }
}
