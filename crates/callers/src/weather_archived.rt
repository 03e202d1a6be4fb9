//! How a `Weather` is archived. Made of src/weather.rt by tools/archived.py: change that, and run the script again.
ghost use Rattle.std.specs.Prelude.{◌≡◌, ◌+◌, ◌≤◌, length};
ghost use Rattle.std.specs.Int.{cast_signed, w16};
ghost use Rattle.rkyv_btree_base.specs.Bytes.{bytes_at, from_le};
ghost use Rattle.rkyv_btree_base.specs.Archiving.{itself};
ghost use Rattle.callers.specs.Weather.{weather_layout, weather_lawful};

use crate::weather::Weather;
use rkyv_btree::prelude::{ArchivedPlain, Native, PlainValue};

/// A `Weather` in 16 bytes.
pub type ArchivedWeather = ArchivedPlain<Weather>;

impl PlainValue for Weather {
    ghost layout = { weather_layout };

    ghost lawful = { weather_lawful };

    fn size_and_align() -> (u32, u32) {
        (16, 8)
    }

    fn is_value(bytes: &[u8]) -> bool {
        bytes[10] < 2 && bytes[11] < 2
    }

    fn from_bytes(bytes: &[u8]) -> Weather {
        Weather {
            seconds: u64_at(bytes, 0),
            celsius: i16_at(bytes, 8),
            raining: bytes[10] == 1,
            windy: bytes[11] == 1,
        }
    }

    fn write_bytes(self, bytes: &mut [u8]) {
        let [
            seconds_0,
            seconds_1,
            seconds_2,
            seconds_3,
            seconds_4,
            seconds_5,
            seconds_6,
            seconds_7,
        ] = self.seconds.to_le_bytes();
        let [celsius_0, celsius_1] = self.celsius.to_le_bytes();
        bytes.copy_from_slice(&[
            seconds_0,
            seconds_1,
            seconds_2,
            seconds_3,
            seconds_4,
            seconds_5,
            seconds_6,
            seconds_7,
            celsius_0,
            celsius_1,
            u8::from(self.raining),
            u8::from(self.windy),
            0,
            0,
            0,
            0,
        ]);
    }

    fn is_in(self) {}
}

impl Native for Weather {
    type Plain = ArchivedWeather;

    ghost same_plain = { itself _ };

    fn is_in(self) {}
}

/// Returns the number of the 8 bytes at a position.
fn u64_at(bytes: &[u8], at: usize) -> u64
    requires { at + 8 ≤ length bytes.now }
    ensures { result ≡ from_le (bytes_at bytes.now at 8) }
{
    u64::from_le_bytes([
        bytes[at],
        bytes[at + 1],
        bytes[at + 2],
        bytes[at + 3],
        bytes[at + 4],
        bytes[at + 5],
        bytes[at + 6],
        bytes[at + 7],
    ])
}

/// Returns the number of the 2 bytes at a position.
fn i16_at(bytes: &[u8], at: usize) -> i16
    requires { at + 2 ≤ length bytes.now }
    ensures { result ≡ cast_signed w16 (from_le (bytes_at bytes.now at 2)) }
{
    i16::from_le_bytes([bytes[at], bytes[at + 1]])
}
