ghost use Rattle.std.specs.Prelude.{◌<◌, ◌≤◌};

use crate::*;
use ring::{Fault, Layer};

// The slip of the resting key.
const RESTING: [u8; 24] = [
    1, 0, 0, 0, 1, 0, 0, 0, 0, 0, 0, 0, 1, 0, 0, 0, 0x4B, 1, 0, 4, 0, 0, 0, 24,
];

// That slip with one byte changed.
fn changed(place: usize, byte: u8) -> [u8; 24]
    requires { place < 24 }
{
    let mut file = RESTING;
    file[place] = byte;
    file
}

// How a load of the file is refused, with a scratch of so many words.
fn refusal(file: &[u8], words: usize) -> Option<Fault>
    requires { words ≤ 17 }
{
    let mut scratch = [7i64; 17];
    let mut key = Key::resting();
    key.load(file, &mut scratch[0..words])
        .err()
        .map(Fault::from)
}

fn fault(number: u8, layer: Layer, place: usize) -> Option<Fault> {
    Some(Fault {
        number,
        layer,
        place,
    })
}

#[test]
fn refusals(rt: HostRuntime) {
    assert_eq!(rt; refusal(&RESTING, 16), None);
    assert_eq!(rt; refusal(&RESTING, 17), fault(1, Layer::Key, 0));
    assert_eq!(rt; refusal(&changed(17, 5), 16), fault(2, Layer::Slip, 17));
    assert_eq!(rt; refusal(&changed(11, 0x80), 16), fault(3, Layer::Slip, 11));
    assert_eq!(rt; refusal(&changed(1, 1), 16), fault(4, Layer::Key, 0));
    assert_eq!(rt; refusal(&changed(6, 0xFF), 16), fault(4, Layer::Key, 1));
    assert_eq!(rt; refusal(&changed(8, 1), 16), fault(5, Layer::Key, 0));
    assert_eq!(rt; refusal(&changed(10, 1), 16), fault(5, Layer::Key, 2));
}

// f = X, g = −X³, F = 0, G = −X³ has the resting key's form.
#[test]
fn turned_key(rt: HostRuntime) {
    let file = [
        0, 1, 0, 0, 0, 0, 0, 0xFF, 0, 0, 0, 0, 0, 0, 0, 0xFF, 0x4B, 1, 0, 4, 0, 0, 0, 24,
    ];
    let mut scratch = [7i64; 16];
    let mut key = Key::resting();
    assert!(rt; key.load(&file, &mut scratch).is_ok());
    assert_eq!(rt; scratch, [0; 16]);
    let mut form = Form::resting();
    assert!(rt; key.make_form(&mut form, &mut scratch[0..15]).is_err());
    assert!(rt; key.make_form(&mut form, &mut scratch).is_ok());
    assert_eq!(rt; form.constants(), (2, 1, 1));
    let second = form.q01[1];
    assert_eq!(rt; second, 0);
}
