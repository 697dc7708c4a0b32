//! What the tests share.
mod logs;
mod nodes;
mod outbox;
mod strict;
