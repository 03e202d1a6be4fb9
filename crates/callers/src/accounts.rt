//! Accounts by name: values of a type of one's own, with padding, which are overwritten in place.
ghost use Rattle.callers.specs.Account.{account_layout, account_lawful};
ghost use Rattle.rkyv_btree_base.specs.Archiving.{itself};

use anyhow::{Result, bail};
use rkyv_btree::prelude::*;
use std::collections::BTreeMap;
use std::fs;

/// An account: its balance in cents, its flags, and its branch.
#[derive(Clone, Copy, Debug, PartialEq, Eq, PartialOrd, Ord, Hash)]
pub struct Account {
    pub cents: u64,
    pub flags: u32,
    pub branch: u16,
}

impl PlainValue for Account {
    ghost layout = { account_layout };

    ghost lawful = { account_lawful };

    fn size_and_align() -> (u32, u32) {
        (16, 8)
    }

    fn is_value(bytes: &[u8]) -> bool {
        bytes[14] == 0 && bytes[15] == 0
    }

    fn from_bytes(bytes: &[u8]) -> Account {
        let [c0, c1, c2, c3, c4, c5, c6, c7, f0, f1, f2, f3, b0, b1, _, _] = *bytes else {
            unreachable!()
        };
        Account {
            cents: u64::from_le_bytes([c0, c1, c2, c3, c4, c5, c6, c7]),
            flags: u32::from_le_bytes([f0, f1, f2, f3]),
            branch: u16::from_le_bytes([b0, b1]),
        }
    }

    fn write_bytes(self, bytes: &mut [u8]) {
        let [c0, c1, c2, c3, c4, c5, c6, c7] = self.cents.to_le_bytes();
        let [f0, f1, f2, f3] = self.flags.to_le_bytes();
        let [b0, b1] = self.branch.to_le_bytes();
        bytes.copy_from_slice(&[c0, c1, c2, c3, c4, c5, c6, c7, f0, f1, f2, f3, b0, b1, 0, 0]);
    }

    fn is_in(self) {}
}

impl Native for Account {
    type Plain = ArchivedPlain<Account>;

    ghost same_plain = { itself _ };

    fn is_in(self) {}
}

/// Accounts by the names of their owners.
pub type Ledger = Archived<BTreeMap<String, Account>>;

/// Validates the bytes and the order of their keys, adds to the balance of an account, and returns the old balance.
pub fn pay(bytes: &mut [u8], name: &str, cents: u64) -> Result<Option<u64>, Refusal> {
    sizes_fit::<Ledger>();
    let mut ledger = open_strict_mut::<Ledger>(bytes)?;
    let old = ledger.with_seal_by(
        name,
        move |_: LentKey<ArchivedText>, account: &mut Seal<ArchivedPlain<Account>>| {
            let old = account.read();
            account.write(Account {
                cents: old.cents.wrapping_add(cents),
                ..old
            });
            old.cents
        },
    );
    Ok(old)
}

/// Pays into an account of a file, and writes the file back. Returns the new balance. The file is unchanged if there is no such account.
pub fn pay_in(rt: &HostRuntime, path: &str, name: &str, cents: u64) -> Result<u64> {
    let mut bytes = fs::read(rt, path)?;
    let Some(old) = pay(bytes.as_mut_slice(), name, cents)? else {
        bail!("no account of that name");
    };
    fs::write(rt, path, bytes.as_slice())?;
    Ok(old.wrapping_add(cents))
}
