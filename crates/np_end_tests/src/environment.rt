//! Reads of a peer and of files, compared with what is wanted.
use np_ports::{Files, Peer, PortError};
use std::process::Abort;

/// The next read of the peer gives this.
pub fn reads<P: Peer>(rt: &impl Abort, peer: &mut P, want: Result<usize, PortError>) {
    let mut buf = [0; 4];
    let got = peer.read(&mut buf);
    assert_eq!(rt; got, want);
}

/// The file has these bytes from this place on, up to the eighth.
pub fn file_has<F: Files>(rt: &impl Abort, files: &mut F, name: &str, at: u64, want: &[u8]) {
    let mut buf = [0; 8];
    let got = files.read(name, at, &mut buf);
    assert_eq!(rt; got, Ok(want.len()));
    assert_eq!(rt; &buf[..want.len()], want);
}

/// A read of the file fails.
pub fn file_fails<F: Files>(rt: &impl Abort, files: &mut F, name: &str) {
    let mut buf = [0; 8];
    let got = files.read(name, 0, &mut buf);
    assert_eq!(rt; got, Err(PortError::Failed));
}
