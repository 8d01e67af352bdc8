//! Small programs of linear code, right ones and wrong ones, run by the meaning of linear code. What they show was worked by hand.
#![tactic(auto)]

mod alone;
mod calls;
mod instrs;
mod packed;
mod shown;

use std::io;

fn main(rt: HostRuntime) -> io::Result<()> {
    alone::values(&rt)?;
    alone::memory(&rt)?;
    alone::waiting(&rt)?;
    alone::places(&rt)?;
    alone::interrupts(&rt)?;
    calls::arguments(&rt)?;
    calls::refused(&rt)?;
    calls::handled(&rt)?;
    packed::runs(&rt)
}
