//! Signed decimal numbers out of bytes, a byte at a time.

/// What has been read of a number.
#[derive(Clone, Copy, Debug, PartialEq, Eq)]
pub enum Scan {
    /// Nothing.
    Outside,
    /// A minus.
    Minus,
    /// Digits, with or without a minus before them; the value stays at the greatest number.
    Inside { minus: bool, value: i64 },
}

impl Scan {
    /// With one byte more.
    pub fn after(self, byte: u8) -> Scan {
        match byte {
            b'0'..=b'9' => self.digit(i64::from(byte - b'0')),
            b'-' => Scan::Minus,
            _ => Scan::Outside,
        }
    }

    fn digit(self, digit: i64) -> Scan {
        match self {
            Scan::Outside => Scan::Inside {
                minus: false,
                value: digit,
            },
            Scan::Minus => Scan::Inside {
                minus: true,
                value: digit,
            },
            Scan::Inside { minus, value } => Scan::Inside {
                minus,
                value: value.saturating_mul(10).saturating_add(digit),
            },
        }
    }

    /// Whether digits are being read.
    pub fn is_inside(self) -> bool {
        matches!(self, Scan::Inside { .. })
    }

    /// The number, if one has been read.
    pub fn number(self) -> Option<i64> {
        match self {
            Scan::Inside {
                minus: false,
                value,
            } => Some(value),
            Scan::Inside { minus: true, value } => Some(value.saturating_neg()),
            _ => None,
        }
    }
}
