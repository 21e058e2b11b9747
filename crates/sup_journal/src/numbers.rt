//! Numbers in decimal digits.
ghost use Rattle.std.specs.Prelude.{◌≡◌, ◌++◌, OnOk};
ghost use Rattle.sup_journal.specs.Edits.{number_of, digits_of};

use std::alloc::AllocError;

#[tactic(auto, unfolding(crate::specs::Edits::number_of))]
pub(crate) fn number_of(digits: &[u8]) -> u64
    ensures { result ≡ number_of digits.now }
{
    digits.iter().fold(0u64, |number, digit| {
        number
            .wrapping_mul(10)
            .wrapping_add(u64::from(digit.saturating_sub(b'0')))
    })
}

// Puts so many digits of a number behind a text, its last ones.
pub(crate) fn put_digits(text: &mut Vec<u8>, number: u64, count: u64) -> Result<(), AllocError>
    ensures { OnOk result (text.new.items ≡ text.old.items ++ digits_of count number) }
{
    if count == 0 {
        return Ok(());
    }
    put_digits(text, number / 10, count - 1)?;
    text.push(b'0' + (number % 10) as u8)?;
    Ok(())
}
