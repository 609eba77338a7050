ghost use Rattle.std.specs.Prelude.{◌≡◌, IfSome, None, true, false};
ghost use Rattle.volume_save.specs.Devices.{is_declared};

use ckd_types::DeviceNo;
use deck_text::Deck;

/// The device of this number, where the deck has it.
pub fn declared(deck: &Deck, n: u64) -> Option<DeviceNo>
    ensures some { IfSome result (λ d. (d ≡ n) × (is_declared deck.now n ≡ true)) }
    ensures none { result ≡ None → is_declared deck.now n ≡ false }
{
    for i in 0..deck.device_count() {
        let line = deck.device_at(i);
        if u64::from(line.number.get()) == n {
            return Some(line.number);
        }
    }
    None
}
