// A double as a whole number in decimal.
use std::fmt;

// Its digits, lowest first.
#[derive(Drop)]
pub(crate) struct Whole {
    digits: [u8; 64],
}

impl Whole {
    // The exact whole number that a double's bits stand for; ranks are such doubles, below 10^64. What comes of other bits
    // means nothing.
    pub(crate) fn of(bits: u64) -> Whole {
        let mut whole = Whole { digits: [0; 64] };
        if bits == 0 {
            return whole;
        }
        let exponent = (bits >> 52) % 2048;
        let mut left = bits % 0x10_0000_0000_0000 + 0x10_0000_0000_0000;
        // below 2^53 the fraction ends before the unit
        let drop = 1075u64.saturating_sub(exponent).min(63);
        left >>= drop;
        for digit in whole.digits.iter_mut() {
            *digit = (left % 10) as u8;
            left /= 10;
        }
        for _ in 0..exponent.saturating_sub(1075) {
            whole.double();
        }
        whole
    }

    fn double(&mut self) {
        let mut carry: u16 = 0;
        for digit in self.digits.iter_mut() {
            let twice = *digit as u16 * 2 + carry % 256;
            *digit = (twice % 10) as u8;
            carry = twice / 10;
        }
    }
}

impl fmt::Display for Whole {
    fn fmt<W: fmt::Write>(&self, f: &mut fmt::Formatter<W>) -> fmt::Result {
        let highest = self
            .digits
            .iter()
            .rposition(|digit| *digit > 0)
            .unwrap_or(0);
        for digit in self.digits[..=highest].iter().rev() {
            write!(f, "{digit}")?;
        }
        Ok(())
    }
}
