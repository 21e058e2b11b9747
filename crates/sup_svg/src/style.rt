//! How it all looks, on light and dark backgrounds.

/// The title, the rules of style, and the ends of arrows. The picture brings its own background.
pub const STYLE: &str = "<title>A run, row by row</title>
<style>
text{font:11px monospace;fill:#222;stroke:#fff;stroke-width:3px;paint-order:stroke}
.back{fill:#fff}
.name{font-weight:bold;font-size:13px;text-anchor:middle}
.line{clip-path:url(#margin);stroke:none}
.child{stroke:none;font-size:10px}
.no{fill:#c0392b}
path{fill:none}
.rule{stroke:#888;stroke-opacity:.25}
.lane{stroke:#888;stroke-width:2}
.gap{stroke:#fff;stroke-width:4}
.down{stroke:#888;stroke-dasharray:1 5}
.done{fill:#222}
.refused{fill:#fff;stroke:#c0392b;stroke-width:2}
.all{fill:#888;fill-opacity:.3}
.c0{fill:#6ba83a}.c1{fill:#4f8fd0}.c2{fill:#d79a2b}.c3{fill:#a978b5}.c4{fill:#d9727f}.c5{fill:#2fa8a3}.c6{fill:#a5a52f}.c7{fill:#999}
.bar{fill-opacity:.5;stroke:#888;stroke-opacity:.7}
.learned{stroke:#2f7fd0;stroke-width:2;marker-end:url(#full)}
.known{stroke:#888;marker-end:url(#thin)}
.acked{stroke:#888;marker-end:url(#thin)}
.came-refused{stroke:#c0392b;marker-end:url(#cross)}
.cut{stroke:#c0392b;stroke-dasharray:5 4;marker-end:url(#cross)}
.misdirected{stroke:#c0392b;stroke-dasharray:5 4;marker-end:url(#cross)}
.lost{stroke:#888;marker-end:url(#cross)}
.full{fill:#2f7fd0}
.thin{fill:#888}
.cross{stroke:#c0392b;stroke-width:2}
@media(prefers-color-scheme:dark){text{fill:#ddd;stroke:#15181c}.no{fill:#f0796b}.back{fill:#15181c}.gap{stroke:#15181c}.done{fill:#ddd}.refused{fill:#15181c}}
</style>
<defs>
<clipPath id='margin'><path d='M0 0H330V8000000H0z'/></clipPath>
<marker id='full' viewBox='0 0 10 10' refX='15' refY='5' markerWidth='10' markerHeight='10' markerUnits='userSpaceOnUse' orient='auto'><path class='full' d='M0 0L10 5L0 10z'/></marker>
<marker id='thin' viewBox='0 0 10 10' refX='15' refY='5' markerWidth='8' markerHeight='8' markerUnits='userSpaceOnUse' orient='auto'><path class='thin' d='M0 1L10 5L0 9z'/></marker>
<marker id='cross' viewBox='-5 -5 10 10' markerWidth='10' markerHeight='10' markerUnits='userSpaceOnUse'><path class='cross' d='M-4 -4L4 4M-4 4L4 -4'/></marker>
</defs>
";
