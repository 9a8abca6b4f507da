//! The six kinds of socket.

/// The kind of our socket. It decides which peers are met and what their commands mean.
#[derive(Clone, Copy, Debug, Drop, PartialEq, Eq)]
pub enum Role {
    Dealer,
    Sub,
    Req,
    Router,
    Pub,
    Rep,
}
