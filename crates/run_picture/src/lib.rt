//! The picture of a run, an SVG: what each sibling did over time, and when tasks that distrust each other ran side by
//! side. It knows no machine, only what a run shows.
#![tactic(auto)]

mod axis;
mod frame;
mod gathered;
mod head;
mod joined;
mod label;
mod lane;
mod legend;
mod look;
mod mark;
mod page;
mod paint;
mod piece;
mod row;
mod scale;
mod shades;
mod span;
mod tiles;
mod title;
mod unit;

pub use page::picture;
