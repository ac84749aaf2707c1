//! What no clause says: that sessions run at the same time, that seats are had and calls answered, that threads find
//! what others left, and that leases are drawn.

mod apart;
mod counter;
mod leases;
mod racing;
mod seats;
mod sleepers;
mod texts;
mod tickets;
mod together;
mod turns;
