//! What the program's commands `lines`, `text` and `world` do, over any reader and writer, and how the program ends.
#![tactic(auto)]

mod ending;
mod lines;
mod plays;
mod script;
mod scripts;
mod sending;
mod stop;
mod text;
mod world;

pub use ending::Ending;
pub use lines::play_lines;
pub use plays::play;
pub use stop::Stop;
pub use text::play_text;
pub use world::play_world;
