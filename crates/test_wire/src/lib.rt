//! Tests of the wire: streams, peers, signatures and messages, by public calls alone. The octets
//! and texts are those of the standards, of libzmq, of Python and of ipykernel.
#![tactic(auto)]

#[cfg(test)]
mod joined;
#[cfg(test)]
mod messages;
#[cfg(test)]
mod peers;
#[cfg(test)]
mod signatures;
#[cfg(test)]
mod streams;
