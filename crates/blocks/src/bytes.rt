// Bytes laid into lent memory from a place on; those past its end go nowhere.
ghost use Rattle.std.specs.Prelude.{[], ◌∷◌, ◌+◌, ◌≤◌, length};
ghost use Rattle.blocks.specs.Placed.{Placed};

use choice::Chosen;

// A place in lent memory, where the next byte goes.
#[derive(Drop)]
pub(crate) struct Place<'a> {
    pub(crate) part: &'a mut [u8],
    pub(crate) at: usize,
}

impl<'a> Place<'a> {
    // One byte.
    pub(crate) fn put(&mut self, byte: u8)
        requires { self.old.at ≤ 1048576 }
        ensures { Placed (byte ∷ []) 1 self.old self.new }
    {
        if self.at < self.part.len() {
            self.part[self.at] = byte;
        }
        self.at += 1;
    }

    // The head of a block: 16, F, A and S.
    pub(crate) fn put_head(&mut self, fault: u8, chosen: Chosen)
        requires { self.old.at ≤ 1000000 }
        ensures { Placed (16 ∷ fault ∷ chosen.side ∷ chosen.quorum ∷ []) 4 self.old self.new }
    {
        self.put(16);
        self.put(fault);
        self.put(chosen.side);
        self.put(chosen.quorum);
    }

    // A route command and its operand where the buffer ends within them.
    // Kept: the command is the byte that the file format has, here and below (docs/FORMATS.md).
    fn put_cut(&mut self, command: u8, route: [u8; 8])
        requires { self.old.at ≤ 1000000 }
        ensures { Placed (command ∷ route) 9 self.old self.new }
    {
        self.put(command);
        for byte in route {
            self.put(byte);
        }
    }

    // The same where the buffer has room for all nine bytes.
    // Kept: a twin of the one above, for speed: it makes no test for each byte, and nearly every route is put so.
    fn put_whole(&mut self, command: u8, route: [u8; 8])
        requires { self.old.at + 9 ≤ length self.old.part.now }
        ensures { Placed (command ∷ route) 9 self.old self.new }
    {
        self.part[self.at] = command;
        self.part[self.at + 1..self.at + 9].copy_from_slice(&route);
        self.at += 9;
    }

    // A route command and the eight bytes of its operand.
    pub(crate) fn put_route(&mut self, command: u8, route: [u8; 8])
        requires { self.old.at ≤ 1000000 }
        ensures { Placed (command ∷ route) 9 self.old self.new }
    {
        if self.part.len() < self.at + 9 {
            self.put_cut(command, route);
        } else {
            self.put_whole(command, route);
        }
    }
}
