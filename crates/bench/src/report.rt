//! Times of what is measured, one a line.

use std::io;
use std::time::Instant;

/// Where times are printed, and for how many entries.
#[derive(Drop)]
pub struct Report<'a> {
    pub rt: &'a HostRuntime,
    pub count: u32,
}

impl Report<'_> {
    /// Runs a measure of `operations` operations five times, prints the least time of one operation, and returns the result of
    /// the last run.
    pub fn time<T: Drop, F: FnMut() -> T>(
        &self,
        who: &str,
        what: &str,
        operations: u32,
        run: F,
    ) -> io::Result<T>
        requires { F.IsAlwaysCallable run }
    {
        self.time_often(who, what, operations, 4, run)
    }

    /// Does as `time` does, but runs the measure once and then `again` times.
    pub fn time_often<T: Drop, F: FnMut() -> T>(
        &self,
        who: &str,
        what: &str,
        operations: u32,
        again: u32,
        mut run: F,
    ) -> io::Result<T>
        requires { F.IsAlwaysCallable run }
    {
        let mut best = u128::MAX;
        let start = Instant::now(self.rt)?;
        let mut answer = run();
        best = best.min(start.elapsed(self.rt)?.as_nanos());
        for _ in 0..again {
            let start = Instant::now(self.rt)?;
            answer = run();
            best = best.min(start.elapsed(self.rt)?.as_nanos());
        }
        self.tell(who, what, operations, best)?;
        Ok(answer)
    }

    /// Prints the time of one operation, of so many nanoseconds for all of them.
    fn tell(&self, who: &str, what: &str, operations: u32, nanos: u128) -> io::Result<()> {
        let tenths = nanos.saturating_mul(10) / u128::from(operations.max(1));
        let (whole, tenth) = (tenths / 10, tenths % 10);
        println!(self.rt; "{who} {what} n={} {whole}.{tenth} ns", self.count)
    }
}
