// A line as it is put together: words and numbers, one after another, in room of its own.
ghost use Rattle.std.specs.Prelude.{ℕ, List, [], ◌++◌, ◌≡◌, ◌+◌, ◌≤◌, length, take};
ghost use Rattle.model.specs.Program.{ascii, decimal, signed};
ghost use Rattle.printing.specs.Text.{line_room, padded, IsFilled};

use fields::parts::copy_at;
use integers::magnitude;
use std::marker::Model;

// So many bytes hold every line.
pub const LINE_ROOM: usize = 128;

pub type LineRoom = [u8; LINE_ROOM];

// What stands in it so far: the first `len` bytes of the room. The others are zeros, so that its bytes say all that there is of it.
#[derive(Clone, Copy)]
pub struct Line {
    room: LineRoom,
    len: usize,
}

impl Model for Line {
    ghost Value = { List ℕ };

    ghost view = { λ l. take l.len l.room };

    ghost invariant = { λ l. IsFilled l.room l.len };

    ghost inverse = { λ bytes. record { room = padded bytes; len = length bytes } };

    ghost inverse_ok = { λ l h i. record { room = h.whole i; len = h.held i } };
}

impl Line {
    pub(crate) fn new() -> Line
        ensures { result ≡ [] }
    {
        Line {
            room: [0; LINE_ROOM],
            len: 0,
        }
    }

    pub fn as_bytes(&self) -> &[u8]
        ensures value { result.now ≡ self.now }
        ensures fits { length result.now ≤ line_room }
    {
        &self.room[..self.len]
    }

    pub(crate) fn put_word(&mut self, word: &[u8])
        requires { length self.old + length word.now ≤ line_room }
        ensures value { self.new ≡ self.old ++ word.now }
        ensures fits { length self.new ≤ line_room }
    {
        copy_at(&mut self.room, self.len, word);
        self.len += word.len();
    }

    // A number takes 20 bytes at most.
    pub(crate) fn put_number(&mut self, n: u64)
        requires { length self.old + 20 ≤ line_room }
        ensures value { self.new ≡ self.old ++ decimal n }
        ensures len { length self.new ≤ length self.old + 20 }
    {
        let mut digits = [0u8; 20];
        let count = io::decimal(n, &mut digits);
        self.put_word(&digits[..count]);
    }

    // A space and a value: its sign, where it is negative, and its magnitude.
    pub(crate) fn put_value(&mut self, z: i32)
        requires { length self.old + 22 ≤ line_room }
        ensures value { self.new ≡ self.old ++ (ascii " " ++ signed z) }
        ensures len { length self.new ≤ length self.old + 22 }
    {
        self.put_word(if z < 0 { b" -" } else { b" " });
        self.put_number(magnitude(i64::from(z)));
    }
}
