// Services over yards in memory.

mod clients;
mod console;
mod doors;
mod faults;
mod gates;
mod held;
mod mail;
mod mute;
mod plans;
mod script;
mod signals;
mod silent;
mod trials;
mod untold;
mod worlds;
mod yards;
