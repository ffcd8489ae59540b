//! Plays a script of commands, and compares what the program answers with values that were worked
//! by hand.
//!
//! The script comes on standard input. It writes files, says what fails in the next call, and calls
//! the program: each line `$ WORDS` goes through the top call over a shelf and sinks in memory. A file
//! that the script has not written is taken from the folder that the program runs in, which has the
//! folders of `examples/`. What is written is a transcript: the comments of the script, each call, its
//! output, its line on standard error after `! `, and its status after `= `.
//!
//! The gate alone calls this program, and compares the transcript with the file `stdout` beside this
//! folder. A row is added there and in `stdin`, with no proof; `script` has the lines of a script.
#![tactic(auto)]

mod answer;
mod call;
mod conditions;
mod cuts;
mod damage;
mod faults;
mod file;
mod gate;
mod player;
mod script;
mod shelf;
mod spoilt;

use player::Player;
use std::io;
use std::io::{BufRead, BufReader};

/// Plays the lines of standard input, one after another.
fn main(rt: HostRuntime) -> io::Result<()> {
    let mut player = Player::new(rt.alloc());
    let script = BufReader::new(rt.alloc(), rt.reader())?;
    for line in script.lines(rt.alloc()) {
        player.play(&rt, line?.as_str())?;
    }
    Ok(())
}
