//! Why a request is denied.

/// Why a request is denied before the service sees it.
#[derive(Clone, Copy, PartialEq, Eq)]
pub enum Denial {
    /// 400, and the connection closes: its target has a scheme or an authority, as for a proxy.
    Target,
    /// 421: its `Host` is a name other than `localhost`, so another's page may have made it.
    Host,
    /// 403: its `Origin` is another than this `Host`, its `Sec-Fetch-Site` is another site, or it has
    /// one of them twice.
    Origin,
}
