//! The fonts, colours and patterns of the picture.
//!
//! Each state of a process has a colour and a pattern of its own, so that the bands are told apart without colour. The class of a band is
//! the letter of its state.

/// The styles and the patterns.
pub(crate) const STYLE: &str = r##"<style>
text{font:11px ui-monospace,SFMono-Regular,Menlo,Consolas,"DejaVu Sans Mono",monospace;fill:#1f2933}
.h{font:600 15px system-ui,-apple-system,"Segoe UI",Roboto,"Helvetica Neue",Arial,sans-serif}
.s{font:11px system-ui,-apple-system,"Segoe UI",Roboto,"Helvetica Neue",Arial,sans-serif;fill:#52606d}
.n{font-weight:600}
.q,.q text,.e,.a text{font-size:9.5px;fill:#7b8794}
.a text{fill:#3e4c59}
.a .z{fill:#b42318;font-weight:600}
.e{text-anchor:end}
.w,.v{font-size:10px}
.w{paint-order:stroke;stroke:#fff;stroke-width:3px;stroke-linejoin:round}
.v{fill:#fff}
.z{fill:#b42318}
.g{fill:#f3f5f8}
.k{fill:none;stroke:#e4e7eb}
.l{fill:#b45309;stroke:#b45309}
.c{fill:#1f2933}
.r{fill:#fff;stroke:#1f2933}
.t{fill:#b42318}
.d{fill:none;stroke:#b42318;stroke-width:2}
.m{fill:none;stroke:#52606d;stroke-width:1.5}
.C{fill:#1d4ed8}
.I{fill:#f1f5f9}
.R{fill:#bfdbfe}
.M{fill:url(#M)}
.T{fill:url(#T)}
.S{fill:url(#S)}
.W{fill:url(#W)}
.U{fill:url(#U)}
</style>
<defs>
<pattern id="M" width="4" height="4" patternUnits="userSpaceOnUse"><path fill="#ede9fe" d="M0 0h4v4h-4z"/><path fill="#a78bfa" d="M0 0h4v1h-4z"/></pattern>
<pattern id="T" width="4" height="4" patternUnits="userSpaceOnUse"><path fill="#ede9fe" d="M0 0h4v4h-4z"/><path fill="#a78bfa" d="M0 0h4v1h-4zM0 0h1v4h-1z"/></pattern>
<pattern id="S" width="5" height="5" patternUnits="userSpaceOnUse"><path fill="#ecfdf5" d="M0 0h5v5h-5z"/><path fill="#34a27b" d="M2 2h1.5v1.5h-1.5z"/></pattern>
<pattern id="W" width="6" height="6" patternUnits="userSpaceOnUse"><path fill="#fef3c7" d="M0 0h6v6h-6z"/><path fill="none" stroke="#d9a13b" d="M-1 1l2-2M0 6l6-6M5 7l2-2"/></pattern>
<pattern id="U" width="4" height="4" patternUnits="userSpaceOnUse"><path fill="#f3f5f8" d="M0 0h4v4h-4z"/><path fill="#9aa5b1" d="M0 0h1v4h-1z"/></pattern>
</defs>
"##;
