//! What every picture has: its style, its lanes, and its legend.

/// The shapes and their colours, which color-blind people can tell apart, and the names of the lanes.
pub(crate) const LANES: &[u8] = b"<style>
.lane { font-weight: bold }
.state, .more, .reply, .fault { font-size: 10px }
.more { fill: #767676 }
.fault { fill: #a63c00; font-weight: bold }
</style>
<defs>
<pattern id='hatch' width='6' height='6' patternUnits='userSpaceOnUse' patternTransform='rotate(45)'>
<path fill='#d9efe7' d='M0 0h6v6h-6z'/><path fill='#7fcfb4' d='M0 0h2v6h-2z'/>
</pattern>
<path id='power-off' stroke='#999' d='M0 180h16'/>
<path id='power-on' fill='#e69f00' d='M0 168h16v12h-16z'/>
<path id='power-asleep' fill='#f5d590' d='M0 175h16v5h-16z'/>
<path id='memory-nothing' stroke='#999' d='M0 222h16'/>
<path id='memory-boots' fill='#bfdcec' d='M0 204h16v18h-16z'/>
<path id='memory-runs' fill='#0072b2' d='M0 204h16v18h-16z'/>
<path id='memory-saves' fill='#cc79a7' d='M0 204h16v18h-16z'/>
<path id='memory-undoes' fill='#f0e442' d='M0 204h16v18h-16z'/>
<path id='memory-settles' fill='#f0e442' d='M0 204h16v18h-16z'/>
<path id='memory-wakes' fill='#f0e442' d='M0 204h16v18h-16z'/>
<path id='memory-loads' fill='#56b4e9' d='M0 204h16v18h-16z'/>
<path id='memory-sleeps' fill='#8fb8d6' d='M0 213h16v9h-16z'/>
<path id='disk-none' stroke='#999' d='M0 280h16'/>
<path id='disk-image' fill='#35b58f' d='M0 246h16v34h-16z'/>
<path id='disk-perhaps' fill='url(#hatch)' d='M0 246h16v34h-16z'/>
<path id='write' d='M4 258h8v8h-8z'/>
<path id='read' fill='#fff' stroke='#000' d='M4 258h8v8h-8z'/>
<path id='sync' stroke='#000' stroke-width='3' d='M8 244v36'/>
<path id='header' fill='#fff' stroke='#000' d='M3 256h10v12h-10zM5 259h6M5 262h6M5 265h4'/>
<path id='mark' stroke='#000' stroke-width='1.5' d='M4 278v-30l10 6l-10 6'/>
<path id='back' fill='#fff' stroke='#000' stroke-width='1.5' d='M4 278v-30l10 6l-10 6'/>
<path id='fails' stroke='#d55e00' stroke-width='3' d='M2 256l12 12M14 256l-12 12'/>
<g id='cut' fill='none'>
<path stroke='#fff' stroke-width='7' d='M10 150l-5 42h8l-6 46h8l-6 46'/>
<path stroke='#d55e00' stroke-width='3' d='M10 150l-5 42h8l-6 46h8l-6 46'/>
</g>
<path id='event' stroke='#ccc' d='M.5 150v136'/>
</defs>
<rect width='100%' height='100%' fill='#fff'/>
<text class='lane' x='6' y='178'>power</text>
<text class='lane' x='6' y='217'>memory</text>
<text class='lane' x='6' y='267'>disk</text>
";

/// The legend: what the shapes mean. It covers words that are longer than their place.
pub(crate) const LEGEND: &[u8] = b"<path fill='#fff' d='M0 0h720v58h-720z'/>
<text class='lane' x='6' y='15'>power</text>
<use href='#power-on' x='72' y='-164'/><text x='92' y='15'>on</text>
<use href='#power-asleep' x='120' y='-165'/><text x='140' y='15'>asleep</text>
<use href='#power-off' x='188' y='-169'/><text x='208' y='15'>off</text>
<use href='#cut' transform='translate(236 -17)scale(1 .12)'/><text x='256' y='15'>power cut</text>
<text class='lane' x='330' y='15'>disk</text>
<use href='#disk-none' x='364' y='-269'/><text x='384' y='15'>no image</text>
<use href='#disk-perhaps' transform='translate(446 -83)scale(1 .36)'/><text x='466' y='15'>perhaps an image</text>
<use href='#disk-image' transform='translate(576 -83)scale(1 .36)'/><text x='596' y='15'>image</text>
<text class='lane' x='6' y='34'>memory</text>
<use href='#memory-boots' transform='translate(72 -112)scale(1 .67)'/><text x='92' y='34'>boots</text>
<use href='#memory-runs' transform='translate(134 -112)scale(1 .67)'/><text x='154' y='34'>runs</text>
<use href='#memory-saves' transform='translate(190 -112)scale(1 .67)'/><text x='210' y='34'>is saved</text>
<use href='#memory-loads' transform='translate(268 -112)scale(1 .67)'/><text x='288' y='34'>is loaded</text>
<use href='#memory-undoes' transform='translate(350 -112)scale(1 .67)'/><text x='370' y='34'>a mark is taken back, and it runs on</text>
<use href='#memory-sleeps' transform='translate(576 -118)scale(1 .67)'/><text x='596' y='34'>sleeps</text>
<text class='lane' x='6' y='53'>disk calls</text>
<use href='#write' x='72' y='-213'/><text x='92' y='53'>page written</text>
<use href='#read' x='168' y='-213'/><text x='188' y='53'>page read</text>
<use href='#header' x='250' y='-213'/><text x='270' y='53'>header read</text>
<use href='#sync' transform='translate(344 -81)scale(1 .5)'/><text x='362' y='53'>sync</text>
<use href='#mark' transform='translate(398 -81)scale(1 .5)'/><text x='418' y='53'>mark written</text>
<use href='#back' transform='translate(498 -81)scale(1 .5)'/><text x='518' y='53'>taken back</text>
<use href='#fails' x='588' y='-213'/><text x='608' y='53'>call that fails</text>
</svg>
";
