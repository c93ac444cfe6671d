// The words of the command line as C hands them over: their bytes, one word behind another, each with a NUL behind it; and their addresses.
ghost use Rattle.std.specs.Prelude.{length, ◌≤◌};

use prelude::slices;
use std::env::FillError;
use std::rt::Env;

#[derive(Clone, Copy)]
pub struct Words<'a> {
    pub all: &'a [u8],
    pub addresses: &'a [usize],
}

// The place of the next NUL, or the end.
fn end_from(all: &[u8], from: usize) -> usize
    requires { from ≤ length all.now }
    ensures { (from ≤ result) × (result ≤ length all.now) }
{
    for i in from..all.len() {
        if all[i] == 0 {
            return i;
        }
    }
    all.len()
}

// The place of word i, from 0, or the end.
fn place_of(all: &[u8], addresses: &[usize], i: usize) -> usize
    ensures { result ≤ length all.now }
{
    if i >= addresses.len() {
        return all.len();
    }
    let first = addresses[0];
    let own = addresses[i];
    if own < first {
        return all.len();
    }
    slices::least(own - first, all.len())
}

impl Env for Words<'_> {
    fn arg(&self, i: usize, buf: &mut [u8]) -> Result<usize, FillError> {
        let from = place_of(self.all, self.addresses, i);
        if from == self.all.len() {
            return Err(FillError::NotPresent);
        }
        let n = end_from(self.all, from) - from;
        let k = slices::least(n, buf.len());
        slices::copy_run(self.all, from, k, 0, buf);
        if k < n {
            return Err(FillError::TooLong);
        }
        Ok(n)
    }

    // The command reads no variable.
    fn var(&self, _name: &str, _buf: &mut [u8]) -> Result<usize, FillError> {
        Err(FillError::NotPresent)
    }

    fn var_at(&self, _i: usize, _buf: &mut [u8]) -> Result<usize, FillError> {
        Err(FillError::NotPresent)
    }
}
