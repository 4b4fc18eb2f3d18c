// Internal: figures in whole bytes, four each, little-endian, read in place.
ghost use Rattle.std.specs.Prelude.{◌≡◌, ◌/◌, length};
ghost use Rattle.rules.specs.DayFile.{words_of};
ghost use Rattle.month_bytes.specs.Tables.{signed_of, figures_of};

use month_step::figures::Figures;

#[derive(Clone, Copy)]
pub struct InBytes<'a> {
    pub bytes: &'a [u8],
}

impl InBytes<'_> {
    // How many figures the bytes make.
    fn figures(&self) -> usize
        ensures { result ≡ length self.now.bytes.now / 4 }
    {
        self.bytes.len() / 4
    }
}

// Prices: words without a sign.
impl Figures<u32> for InBytes<'_> {
    ghost figures = { λ s. words_of s.bytes.now };

    fn count(&self) -> usize {
        self.figures()
    }

    fn figure(&self, place: usize) -> u32 {
        word_bytes::word_at(self.bytes, 4 * place)
    }
}

// Imbalance and DM.
impl Figures<i32> for InBytes<'_> {
    ghost figures = { λ s. figures_of s.bytes.now };

    fn count(&self) -> usize {
        self.figures()
    }

    fn figure(&self, place: usize) -> i32 {
        signed(word_bytes::word_at(self.bytes, 4 * place))
    }
}

// A word as a signed figure, two's complement, by arithmetic: the loop over rows calls it (02, T-04). The library's
// `cast_signed` has a branch in its source.
fn signed(word: u32) -> i32
    ensures { result ≡ signed_of word }
{
    (i64::from(word) - (u64::from(word) / 2147483648 * 4294967296) as i64) as i32
}
