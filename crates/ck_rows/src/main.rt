//! Plays worked rows on the plain program. Standard input has a row's calls, a line each, and each line is printed with
//! its reply. A line `row NAME BLOCKS RECORDS ID` begins a row on an empty world whose next checkpoint has that id, and
//! `at MOMENT` sets the moment of the calls that follow.
#![tactic(auto)]

mod calls;
mod player;
mod stop;

use player::Player;
use std::io;
use std::io::Write;
use stop::Stop;

fn main(rt: HostRuntime) -> Result<(), Stop> {
    let mut player = Player::new(rt.alloc())?;
    for line in rt.lines(rt.alloc()) {
        let line = line?;
        let told = player.play(line.as_str())?;
        io::writer(&rt).write_all(&told)?;
    }
    Ok(())
}
