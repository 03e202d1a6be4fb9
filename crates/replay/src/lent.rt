//! Native values that lie in a case or in an archive, and are read where they are.

use crate::input::{Input, Wire};
use crate::shown::show_bytes;
use rkyv_btree_update::from_archived::FromArchived;
use std::alloc::{AllocError, Global};

/// A native type whose values a case holds, and which is made of archived values without an allocation.
pub trait Lent<'a>: FromArchived<'a> {
    /// Takes the next value of a case.
    fn take_lent(alloc: Global, input: &mut Input<'a>) -> anyhow::Result<Self>;

    /// Appends the text of a value, as that of an archived one.
    fn show_lent(self, out: &mut String) -> Result<(), AllocError>;
}

impl<'a> Lent<'a> for u8 {
    fn take_lent(alloc: Global, input: &mut Input<'a>) -> anyhow::Result<u8> {
        Wire::take(alloc, input)
    }

    fn show_lent(self, out: &mut String) -> Result<(), AllocError> {
        write!(out, "{self}")
    }
}

impl<'a> Lent<'a> for u16 {
    fn take_lent(alloc: Global, input: &mut Input<'a>) -> anyhow::Result<u16> {
        Wire::take(alloc, input)
    }

    fn show_lent(self, out: &mut String) -> Result<(), AllocError> {
        write!(out, "{self}")
    }
}

impl<'a> Lent<'a> for u32 {
    fn take_lent(alloc: Global, input: &mut Input<'a>) -> anyhow::Result<u32> {
        Wire::take(alloc, input)
    }

    fn show_lent(self, out: &mut String) -> Result<(), AllocError> {
        write!(out, "{self}")
    }
}

impl<'a> Lent<'a> for u64 {
    fn take_lent(alloc: Global, input: &mut Input<'a>) -> anyhow::Result<u64> {
        Wire::take(alloc, input)
    }

    fn show_lent(self, out: &mut String) -> Result<(), AllocError> {
        write!(out, "{self}")
    }
}

impl<'a> Lent<'a> for i32 {
    fn take_lent(alloc: Global, input: &mut Input<'a>) -> anyhow::Result<i32> {
        Wire::take(alloc, input)
    }

    fn show_lent(self, out: &mut String) -> Result<(), AllocError> {
        write!(out, "{self}")
    }
}

impl<'a> Lent<'a> for () {
    fn take_lent(_alloc: Global, _input: &mut Input<'a>) -> anyhow::Result<()> {
        Ok(())
    }

    fn show_lent(self, out: &mut String) -> Result<(), AllocError> {
        out.push('.')
    }
}

impl<'a> Lent<'a> for &'a str {
    fn take_lent(_alloc: Global, input: &mut Input<'a>) -> anyhow::Result<&'a str> {
        input.text()
    }

    fn show_lent(self, out: &mut String) -> Result<(), AllocError> {
        out.push('x')?;
        show_bytes(self.as_bytes(), out)
    }
}

impl<'a, X: Lent<'a>, Y: Lent<'a>> Lent<'a> for (X, Y) {
    fn take_lent(alloc: Global, input: &mut Input<'a>) -> anyhow::Result<(X, Y)> {
        let first = X::take_lent(alloc, input)?;
        let second = Y::take_lent(alloc, input)?;
        Ok((first, second))
    }

    fn show_lent(self, out: &mut String) -> Result<(), AllocError> {
        out.push('(')?;
        self.0.show_lent(out)?;
        out.push(',')?;
        self.1.show_lent(out)?;
        out.push(')')
    }
}
