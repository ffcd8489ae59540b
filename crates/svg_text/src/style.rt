//! The parts of a picture that are always the same: colours, the arrow's head, and the legend.

/// The style block, and the head of an arrow. The fills are the eight colours of Okabe and Ito, which
/// readers with any kind of colour blindness tell apart. Dark pages have other inks, and the same fills.
/// What takes no time has a bar without a width, so its outline has its colour.
pub const STYLE: &[u8] = b"<style>
text{font:11px ui-monospace,Menlo,Consolas,'DejaVu Sans Mono',monospace;fill:#24292f}
path{stroke:#111;stroke-opacity:.45}
.paper{fill:#fff}
.lane{fill:#57606a;fill-opacity:.08;stroke:none}
.medium{fill:#8250df;fill-opacity:.12;stroke:none}
.name{text-anchor:end;font-weight:bold}
.tick{text-anchor:middle;fill:#6b7480}
.length{text-anchor:end}
.label{text-anchor:middle;fill:#111;pointer-events:none}
.grid{stroke:#6b7480;stroke-opacity:.3}
.end{stroke:#24292f;stroke-opacity:1;stroke-dasharray:4 3}
.arrow{fill:none;stroke:#57606a;stroke-opacity:.6;marker-end:url(#head)}
.head{fill:#57606a;stroke:none}
.value{text-anchor:end;fill:#6b7480}
.curve{fill:none;stroke-opacity:1;stroke-width:1.5}
.line1{stroke:#0072b2}
.ink1{fill:#0072b2}
.line2{stroke:#e69f00}
.ink2{fill:#e69f00}
.line3{stroke:#009e73}
.ink3{fill:#009e73}
.line4{stroke:#d55e00}
.ink4{fill:#d55e00}
.line5{stroke:#cc79a7}
.ink5{fill:#cc79a7}
.line6{stroke:#56b4e9}
.ink6{fill:#56b4e9}
.line7{stroke:#a08c00}
.ink7{fill:#a08c00}
.line8{stroke:#8a9097}
.ink8{fill:#8a9097}
.function,.shade1{fill:#56b4e9}
.actuator,.shade2{fill:#e69f00}
.sensor,.shade3{fill:#009e73}
.delay,.shade4{fill:#f0e442}
.route,.shade5{fill:#cc79a7}
.transfer,.shade6{fill:#d55e00}
.shade7{fill:#4c8fd0}
.constant,.shade8{fill:#b4b9bf}
.delay,.route,.constant{stroke-opacity:1;stroke-width:3}
.delay{stroke:#b3a500}
.route{stroke:#cc79a7}
.constant{stroke:#8a9097}
@media (prefers-color-scheme:dark){
text{fill:#e6edf3}
path{stroke:#e6edf3}
.paper{fill:#0d1117}
.lane{fill:#9198a1;fill-opacity:.12}
.medium{fill:#a371f7;fill-opacity:.16}
.tick,.value{fill:#9198a1}
.label{fill:#111}
.end{stroke:#e6edf3}
.arrow{stroke:#9198a1}
.head{fill:#9198a1}
.line1{stroke:#4aa3dd}
.ink1{fill:#4aa3dd}
}
</style>
<marker id=\"head\" viewBox=\"0 0 8 8\" refX=\"7\" refY=\"4\" markerWidth=\"6\" markerHeight=\"6\" orient=\"auto\">
<path class=\"head\" d=\"M0 0L8 4L0 8z\"/>
</marker>
";

/// What the colours of a chart mean.
pub const LEGEND: &[u8] = b"<path class=\"sensor\" d=\"M0 0h12v12h-12z\"/>
<text x=\"18\" y=\"10\">sensor</text>
<path class=\"function\" d=\"M86 0h12v12h-12z\"/>
<text x=\"104\" y=\"10\">function</text>
<path class=\"actuator\" d=\"M186 0h12v12h-12z\"/>
<text x=\"204\" y=\"10\">actuator</text>
<path class=\"constant\" d=\"M286 0h12v12h-12z\"/>
<text x=\"304\" y=\"10\">constant</text>
<path class=\"delay\" d=\"M386 0h12v12h-12z\"/>
<text x=\"404\" y=\"10\">delay</text>
<path class=\"route\" d=\"M466 0h12v12h-12z\"/>
<text x=\"484\" y=\"10\">explode, implode, merge</text>
<path class=\"transfer\" d=\"M666 0h12v12h-12z\"/>
<text x=\"684\" y=\"10\">transfer</text>
";

/// The end of a group.
pub const END_GROUP: &[u8] = b"</g>
";

/// The end of a picture.
pub const END: &[u8] = b"</svg>
";
