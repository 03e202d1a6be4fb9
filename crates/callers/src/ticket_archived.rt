//! How a `Ticket` is archived. Made of src/ticket.rt by tools/archived.py: change that, and run the script again.
ghost use Rattle.std.specs.Prelude.{◌≡◌, ◌+◌, ◌≤◌, length};
ghost use Rattle.rkyv_btree_base.specs.Bytes.{bytes_at, from_le};
ghost use Rattle.rkyv_btree_base.specs.Archiving.{itself};
ghost use Rattle.callers.specs.Ticket.{ticket_layout, ticket_lawful, priority_number, priority_of, ticket_bytes_0, ticket_bytes_32};

use crate::ticket::{Priority, Ticket};
use rkyv_btree::prelude::{ArchivedPlain, Native, PlainValue};

/// A `Ticket` in 56 bytes.
pub type ArchivedTicket = ArchivedPlain<Ticket>;

impl PlainValue for Ticket {
    ghost layout = { ticket_layout };

    ghost lawful = { ticket_lawful };

    fn size_and_align() -> (u32, u32) {
        (56, 8)
    }

    fn is_value(bytes: &[u8]) -> bool {
        bytes[32] < 3
    }

    fn from_bytes(bytes: &[u8]) -> Ticket {
        Ticket {
            hash: [
                bytes[0], bytes[1], bytes[2], bytes[3], bytes[4], bytes[5], bytes[6], bytes[7],
                bytes[8], bytes[9], bytes[10], bytes[11], bytes[12], bytes[13], bytes[14],
                bytes[15], bytes[16], bytes[17], bytes[18], bytes[19], bytes[20], bytes[21],
                bytes[22], bytes[23], bytes[24], bytes[25], bytes[26], bytes[27], bytes[28],
                bytes[29], bytes[30], bytes[31],
            ],
            priority: priority_of(bytes[32]),
            opened: u64_at(bytes, 40),
            country: [bytes[48], bytes[49]],
        }
    }

    fn write_bytes(self, bytes: &mut [u8]) {
        let (part, rest) = bytes.split_at_mut(32);
        write_0(self, part);
        write_32(self, rest);
    }

    fn is_in(self) {}
}

impl Native for Ticket {
    type Plain = ArchivedTicket;

    ghost same_plain = { itself _ };

    fn is_in(self) {}
}

/// Writes the bytes of a `Ticket` from 0 to 32.
#[tactic(auto, unfolding(crate::specs::Ticket::ticket_bytes_0))]
fn write_0(value: Ticket, bytes: &mut [u8])
    requires { length bytes.old ≡ 32 }
    ensures { bytes.new ≡ ticket_bytes_0 value }
{
    bytes.copy_from_slice(&[
        value.hash[0],
        value.hash[1],
        value.hash[2],
        value.hash[3],
        value.hash[4],
        value.hash[5],
        value.hash[6],
        value.hash[7],
        value.hash[8],
        value.hash[9],
        value.hash[10],
        value.hash[11],
        value.hash[12],
        value.hash[13],
        value.hash[14],
        value.hash[15],
        value.hash[16],
        value.hash[17],
        value.hash[18],
        value.hash[19],
        value.hash[20],
        value.hash[21],
        value.hash[22],
        value.hash[23],
        value.hash[24],
        value.hash[25],
        value.hash[26],
        value.hash[27],
        value.hash[28],
        value.hash[29],
        value.hash[30],
        value.hash[31],
    ]);
}

/// Writes the bytes of a `Ticket` from 32 to 56.
#[tactic(auto, unfolding(crate::specs::Ticket::ticket_bytes_32))]
fn write_32(value: Ticket, bytes: &mut [u8])
    requires { length bytes.old ≡ 24 }
    ensures { bytes.new ≡ ticket_bytes_32 value }
{
    let [
        opened_0,
        opened_1,
        opened_2,
        opened_3,
        opened_4,
        opened_5,
        opened_6,
        opened_7,
    ] = value.opened.to_le_bytes();
    bytes.copy_from_slice(&[
        priority_number(value.priority),
        0,
        0,
        0,
        0,
        0,
        0,
        0,
        opened_0,
        opened_1,
        opened_2,
        opened_3,
        opened_4,
        opened_5,
        opened_6,
        opened_7,
        value.country[0],
        value.country[1],
        0,
        0,
        0,
        0,
        0,
        0,
    ]);
}

/// Returns the place of a `Priority` in its enum, from 0 on.
fn priority_number(value: Priority) -> u8
    ensures { result ≡ priority_number value }
{
    match value {
        Priority::Low => 0,
        Priority::Normal => 1,
        Priority::High => 2,
    }
}

/// Returns the `Priority` with a number, or the last one.
fn priority_of(number: u8) -> Priority
    ensures { result ≡ priority_of number }
{
    match number {
        0 => Priority::Low,
        1 => Priority::Normal,
        _ => Priority::High,
    }
}

/// Returns the number of the 8 bytes at a position.
fn u64_at(bytes: &[u8], at: usize) -> u64
    requires { at + 8 ≤ length bytes.now }
    ensures { result ≡ from_le (bytes_at bytes.now at 8) }
{
    u64::from_le_bytes([
        bytes[at],
        bytes[at + 1],
        bytes[at + 2],
        bytes[at + 3],
        bytes[at + 4],
        bytes[at + 5],
        bytes[at + 6],
        bytes[at + 7],
    ])
}
