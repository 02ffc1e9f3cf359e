//! The internet checksum (RFC 1071).

ghost use Rattle.std.specs.Prelude.{◌≡◌, ◌-◌, length};
ghost use Rattle.std.specs.Int.{w64, from_be_bytes};
ghost use Rattle.pcap_text.specs.Checksum as spec;

/// The ones' complement sum of two words.
#[tactic(auto, unfolding(crate::specs::Checksum::carried))]
fn carried(a: u16, b: u16) -> u16
    ensures { result ≡ spec.carried a b }
{
    let sum = u32::from(a) + u32::from(b);
    if sum < 65_536 {
        sum as u16
    } else {
        (sum - 65_535) as u16
    }
}

/// The ones' complement sum of two words of 64 bits.
#[tactic(auto, unfolding(crate::specs::Checksum::carried_wide))]
fn carried_wide(a: u64, b: u64) -> u64
    ensures { result ≡ spec.carried_wide a b }
{
    let (sum, carries) = a.overflowing_add(b);
    if carries { sum + 1 } else { sum }
}

/// Four words at once.
fn wide_word(bytes: &[u8]) -> u64
    requires { length bytes.now ≡ 8 }
    ensures { result ≡ from_be_bytes w64 bytes.now }
{
    u64::from_be_bytes([
        bytes[0], bytes[1], bytes[2], bytes[3], bytes[4], bytes[5], bytes[6], bytes[7],
    ])
}

/// A sum of 64 bits in 16.
fn folded(sum: u64) -> u16
    ensures { spec.Folds sum result }
{
    if sum == 0 {
        0
    } else {
        ((sum - 1) % 65_535 + 1) as u16
    }
}

/// The ones' complement sum of a few bytes on top of a sum.
#[tactic(auto, using(crate::proofs::Sums::sum_on_steps))]
fn sum_by_words(sum: u16, bytes: &[u8]) -> u16
    ensures { result ≡ spec.sum_on sum bytes.now }
{
    let mut sum = sum;
    let mut rest = bytes;
    while rest.len() >= 2 {
        let (word, after) = rest.split_at(2);
        sum = carried(sum, u16::from_be_bytes([word[0], word[1]]));
        rest = after;
    }
    if rest.is_empty() {
        sum
    } else {
        carried(sum, u16::from_be_bytes([rest[0], 0]))
    }
}

/// The ones' complement sum of some bytes on top of a sum.
pub(crate) fn sum_on(sum: u16, bytes: &[u8]) -> u16
    ensures { result ≡ spec.sum_on sum bytes.now }
{
    let mut wide = u64::from(sum);
    let mut rest = bytes;
    while rest.len() >= 8 {
        let (words, after) = rest.split_at(8);
        wide = carried_wide(wide, wide_word(words));
        rest = after;
    }
    sum_by_words(folded(wide), rest)
}
