// Where the octets come from: standard input.
ghost use Rattle.std.specs.Prelude.{IfErr};
ghost use Rattle.std.specs.declared.io.Error.{Error};

use crate::progress::Input;
use std::io;
use std::io::{Read, Stdin};

// Which octets come, no contract can say.
pub trait Source {
    // The errors that a read may end in.
    ghost fails: { Error → Type 0 };

    // Reads once, to the front of the chunk, and answers how many octets came: none where the input ended.
    fn read_chunk(&mut self, input: &mut Input) -> io::Result<usize>
        ensures { IfErr result fails };
}

impl Source for Stdin {
    ghost fails = { λ _. Unit {0} };

    fn read_chunk(&mut self, input: &mut Input) -> io::Result<usize> {
        self.read(input)
    }
}
