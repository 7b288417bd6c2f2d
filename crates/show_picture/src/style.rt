//! Looks on light and dark pages.

/// The page's background.
pub const PAGE: &[u8] = b"page";

/// Given slots.
pub const GIVE: &[u8] = b"give";

/// Taken slots.
pub const TAKE: &[u8] = b"take";

/// What is done.
pub const DONE: &[u8] = b"done";

/// Kept slots.
pub const KEPT: &[u8] = b"kept";

/// A mark in words' colour.
pub const INK: &[u8] = b"ink";

/// Copies of any kind.
pub const SOME: &[u8] = b"some";

/// Copies still to do.
pub const PALE: &[u8] = b"pale";

/// The classes' rules. Words have at least 10 pixels. White on orange or blue has a contrast of at least 4.5.
pub const STYLE: &[u8] = b"<style>
text{font-family:'DejaVu Sans',Verdana,sans-serif;fill:#16202c}
.t{font-size:19px;font-weight:bold}.s,.n{font-size:12px}.b,.h{font-size:11px}.c,.k{font-size:10px}
.s,.h,.k{fill:#5d6b7a}
.page,.bare{fill:#fff}.odd{fill:#f4f6f8}.even{fill:#fafbfc}.track{fill:#eef1f4}.new{fill:#e3edfd}
.give{fill:#c2570c}.take{fill:#1d5fd0}.done{fill:#2f855a}.kept{fill:#aab4c0}.some{fill:#8a95a3}.pale{fill:#c9d1d9}.ink{fill:#16202c}
.giver{stroke:#c2570c}.taker{stroke:#1d5fd0}.edge{stroke:#8a95a3}.rule{stroke:#dfe4ea}.lost{fill:none;stroke:#c2570c;stroke-dasharray:3 2}
.on{fill:#fff}.leaves{fill:#c2570c;font-weight:bold}.joins{fill:#1d5fd0;font-weight:bold}.down{text-decoration:line-through}
@media (prefers-color-scheme:dark){
text{fill:#e6edf3}
.s,.h,.k{fill:#9aa7b4}
.page,.bare{fill:#0d1117}.odd{fill:#171d25}.even{fill:#11161d}.track{fill:#242b34}.new{fill:#13294b}
.take{fill:#2a6ce0}.done{fill:#3a9a68}.kept{fill:#5b6775}.some{fill:#7d8896}.pale{fill:#39424d}.ink{fill:#e6edf3}
.giver{stroke:#dd7a30}.taker{stroke:#5e96f2}.rule{stroke:#2b333d}.lost{stroke:#dd7a30}
.on{fill:#fff}.leaves{fill:#f0955a}.joins{fill:#79b0ff}
}
</style>
";
