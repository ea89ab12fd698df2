//! What the replicas asked for last.

ghost use Rattle.std.specs.Prelude.{◌≡◌, slice_index_or};
ghost use Rattle.wire.specs.Reading.{reading};
ghost use Rattle.sockets.specs.Asking.{nothing_asked, told, version_at, noted, noted_as, news_of, without_news};

use wire::{ASK_LEN, Datagram, Out, read};

/// What a replica asked for last: its boot, the number of its request, and the version that it was told.
#[derive(Clone, Copy, PartialEq, Eq)]
pub struct Asked {
    pub boot: u64,
    pub request: u64,
    pub version: u64,
    /// Whether it asked anew since this was looked up last.
    pub is_news: bool,
}

impl Asked {
    /// Nothing.
    pub fn none() -> Asked
        ensures { result ≡ nothing_asked }
    {
        Asked {
            boot: 0,
            request: 0,
            version: 0,
            is_news: false,
        }
    }

    /// The same after the replica asked and was told a version.
    fn told(self, boot: u64, request: u64, version: u64) -> Asked
        ensures { result ≡ told self boot request version }
    {
        let is_same = self.boot == boot && self.request == request;
        Asked {
            boot,
            request,
            version,
            is_news: self.is_news || !is_same,
        }
    }

    /// The version, if it is news.
    fn news(self) -> Option<u64>
        ensures { result ≡ news_of self }
    {
        if self.is_news {
            Some(self.version)
        } else {
            None
        }
    }
}

/// Notes what these bytes ask for, if they are an Ask, and the version that their answer tells.
pub fn note(asked: &mut [Asked], bytes: &[u8], outs: &[Out])
    ensures { asked.new ≡ noted asked.old bytes.now outs.now }
{
    if bytes.len() != ASK_LEN || outs.len() != 1 {
        return;
    }
    if let Some(version) = version_told(outs[0].packet.bytes()) {
        note_ask(asked, bytes, version);
    }
}

/// Notes what these bytes ask for, if they are an Ask, and the version that the replica was told.
fn note_ask(asked: &mut [Asked], bytes: &[u8], version: u64)
    ensures { asked.new ≡ noted_as asked.old (reading bytes.now) version }
{
    match read(bytes) {
        Ok(
            Datagram::Ask {
                replica,
                boot,
                request,
            },
        ) => {
            let place = replica as usize;
            if place < asked.len() {
                asked[place] = asked[place].told(boot, request, version);
            }
        }
        _ => {}
    }
}

/// The version that a Head tells.
fn version_told(bytes: &[u8]) -> Option<u64>
    ensures { result ≡ version_at (reading bytes.now) }
{
    match read(bytes) {
        Ok(Datagram::Head(head)) => Some(head.version),
        _ => None,
    }
}

/// The version that a replica was told, if it asked anew since this was called last.
pub fn take_news(asked: &mut [Asked], replica: u8) -> Option<u64>
    ensures news { result ≡ news_of (slice_index_or asked.old replica nothing_asked) }
    ensures asked { asked.new ≡ without_news asked.old replica }
{
    let place = replica as usize;
    if place >= asked.len() {
        return None;
    }
    let news = asked[place].news();
    asked[place].is_news = false;
    news
}
