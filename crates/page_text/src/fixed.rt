ghost use Rattle.std.specs.Prelude.{◌≡◌, ◌++◌, OnOk};
ghost use Rattle.page_text.specs.Fixed.{head_text, key_text, shapes_text, tail_text};

use crate::{Page, Piece};
use ckd_types::NoMemory;

/// The head of a page, with its style.
#[tactic(auto, unfolding(crate::specs::Fixed::head_text))]
pub(crate) fn put_head(page: &mut Page) -> Result<(), NoMemory>
    ensures { OnOk result (page.new ≡ page.old ++ head_text) }
{
    let pieces = [
        Piece::Text(b"<!DOCTYPE html>\n"),
        Piece::Text(b"<html xmlns='http://www.w3.org/1999/xhtml' lang='en'>\n"),
        Piece::Text(
            b"<head><meta charset='utf-8'/><meta name='viewport' content='width=device-width'/>\n",
        ),
        Piece::Text(b"<title>A run of a deck</title>\n"),
        Piece::Text(b"<style>\n"),
        Piece::Text(
            b":root{color-scheme:light dark;--ink:#1b1b1b;--paper:#fff;--dim:#666;--rule:#bbb;--good:#20639b;--bad:#b3261e;--mark:#fff3b0;--band:#eef2f6}\n",
        ),
        Piece::Text(
            b"@media (prefers-color-scheme:dark){:root{--ink:#e8e8e8;--paper:#15171a;--dim:#a0a0a0;--rule:#4a4f55;--good:#7fb8e6;--bad:#ff8a80;--mark:#4d4410;--band:#20252b}}\n",
        ),
        Piece::Text(
            b"body{margin:1rem;color:var(--ink);background:var(--paper);font:15px/1.4 system-ui,sans-serif}\n",
        ),
        Piece::Text(
            b"h1{font-size:1.3rem}h2{font-size:1.1rem;margin:1.5rem 0 .4rem}h3{font-size:.95rem;margin:.6rem 0 .2rem;position:sticky;left:0;width:max-content}\n",
        ),
        Piece::Text(
            b"a{color:inherit;text-decoration-color:var(--rule)}nav a{margin-right:1rem}\n",
        ),
        Piece::Text(
            b"table{border-collapse:collapse}td,th{padding:.1rem .5rem;border-bottom:1px solid var(--rule);text-align:left;vertical-align:top;font-weight:400}\n",
        ),
        Piece::Text(
            b"thead th,.h{font-weight:600;background:var(--band)}th[scope=row]{color:var(--dim);text-align:right}\n",
        ),
        Piece::Text(
            b".t{font-family:ui-monospace,monospace;font-size:13px;overflow-wrap:anywhere;white-space:pre-wrap}.n{text-align:right}\n",
        ),
        Piece::Text(
            b"tr:target,tr:target td,tr:target th{background:var(--mark)}tr:target th{outline:2px solid var(--ink)}\n",
        ),
        Piece::Text(
            b".beside{display:grid;grid-template-columns:minmax(16rem,2fr) minmax(20rem,3fr);gap:1rem}.beside section{max-height:85vh;overflow:auto}\n",
        ),
        Piece::Text(
            b".lanes{overflow-x:auto;border:1px solid var(--rule);padding:.2rem}.lane{display:flex;width:max-content}\n",
        ),
        Piece::Text(
            b".rows{position:sticky;left:0;width:6rem;font-size:12px;line-height:22px;background:var(--paper);border-right:1px solid var(--rule)}\n",
        ),
        Piece::Text(
            b".lane>svg,.grid{display:block}.grid{overflow:visible;margin:.2rem 0 1rem}svg text{font:11px ui-monospace,monospace;fill:var(--ink)}\n",
        ),
        Piece::Text(
            b"#shapes{position:absolute}.grid text{text-anchor:middle}.g{font:10px ui-monospace,monospace;fill:var(--ink)}.key{list-style:none;padding:0;columns:16rem}.key svg{vertical-align:middle;margin-right:.4rem}\n",
        ),
        Piece::Text(
            b".k{fill:var(--good);stroke:none}.o{fill:var(--paper);stroke:var(--dim)}.b{fill:var(--band);stroke:var(--good)}.w{fill:var(--paper);stroke:var(--ink);stroke-width:2}\n",
        ),
        Piece::Text(
            b".x{fill:var(--paper);stroke:var(--bad);stroke-width:2}.r{fill:none;stroke:var(--ink);stroke-width:1.5}.bar{fill:var(--good);opacity:.35}\n",
        ),
        Piece::Text(
            b".side,.up{fill:var(--band);stroke:var(--rule)}.down,.lost{fill:var(--paper);stroke:var(--bad);stroke-width:2}.pending{fill:var(--paper);stroke:var(--bad);stroke-dasharray:3 2}\n",
        ),
        Piece::Text(
            b".cells{fill:url(#cell);stroke:var(--dim)}.clean{fill:var(--band);stroke:var(--dim)}.modified{fill:var(--mark);stroke:var(--ink)}a:focus{outline:2px solid var(--ink)}\n",
        ),
        Piece::Text(b"@media (max-width:60rem){.beside{display:block}}\n"),
        Piece::Text(
            b"@media print{:root{--ink:#000;--paper:#fff;--dim:#333;--rule:#999;--good:#000;--bad:#000;--mark:#ddd;--band:#eee}body{margin:0;font-size:11px}nav,script{display:none}.beside{display:block}.beside section{max-height:none;overflow:visible}.lanes{overflow:visible}tr{break-inside:avoid}}\n",
        ),
        Piece::Text(b"</style></head>\n"),
        Piece::Text(b"<body><h1>A run of a deck</h1>\n"),
        Piece::Text(
            b"<nav><a href='#timeline'>Timeline</a><a href='#deck'>Deck</a><a href='#report'>Report</a><a href='#programs'>Programs</a><a href='#tracks'>Tracks</a><a href='#key'>Key</a></nav>\n",
        ),
    ];
    page.put(&pieces)
}

/// The shapes of the marks.
#[tactic(auto, unfolding(crate::specs::Fixed::shapes_text))]
pub(crate) fn put_shapes(page: &mut Page) -> Result<(), NoMemory>
    ensures { OnOk result (page.new ≡ page.old ++ shapes_text) }
{
    let pieces = [
        Piece::Text(b"<svg id='shapes' width='0' height='0' aria-hidden='true'><defs>\n"),
        Piece::Text(
            b"<pattern id='cell' width='16' height='16' patternUnits='userSpaceOnUse'><path class='o' d='M16 0H0V16'/></pattern>\n",
        ),
        Piece::Text(b"<g id='s-begin'><path class='k' d='M-3 -6L5 0L-3 6Z'/></g>\n"),
        Piece::Text(
            b"<g id='s-refused'><circle class='o' r='5'/><path class='o' d='M-4 4L4 -4'/></g>\n",
        ),
        Piece::Text(b"<g id='s-ended'><circle class='k' r='4'/></g>\n"),
        Piece::Text(b"<g id='s-exception'><path class='w' d='M0 -7L7 0L0 7L-7 0Z'/></g>\n"),
        Piece::Text(b"<g id='s-check'><path class='x' d='M-5 -6L5 6M-5 6L5 -6'/></g>\n"),
        Piece::Text(
            b"<g id='s-half'><circle class='o' r='4'/><path class='k' d='M0 -4A4 4 0 0 0 0 4Z'/></g>\n",
        ),
        Piece::Text(b"<g id='s-over'><path class='o' d='M0 -9V9'/></g>\n"),
        Piece::Text(b"<g id='s-cut'><path class='x' d='M-4 8L0 -8M0 8L4 -8'/></g>\n"),
        Piece::Text(b"<g id='s-nothing'><circle class='o' r='2'/></g>\n"),
        Piece::Text(b"<g id='s-loss'><path class='x' d='M-7 -6H7L0 7Z'/></g>\n"),
        Piece::Text(b"<g id='s-read'><path class='r' d='M0 0V-9M-3 -6L0 -9L3 -6'/></g>\n"),
        Piece::Text(b"<g id='s-write'><path class='r' d='M0 0V9M-3 6L0 9L3 6'/></g>\n"),
        Piece::Text(
            b"<g id='s-both'><path class='r' d='M0 -9V9M-3 -6L0 -9L3 -6M-3 6L0 9L3 6'/></g>\n",
        ),
        Piece::Text(
            b"<g id='s-reset'><rect class='o' x='-5' y='-8' width='10' height='16' rx='2'/><text class='g' text-anchor='middle' y='4'>0</text></g>\n",
        ),
        Piece::Text(
            b"<g id='s-recovered'><rect class='b' x='-5' y='-8' width='10' height='16' rx='2'/><text class='g' text-anchor='middle' y='4'>R</text></g>\n",
        ),
        Piece::Text(
            b"<g id='s-copied'><rect class='b' x='-5' y='-8' width='10' height='16' rx='2'/><text class='g' text-anchor='middle' y='4'>C</text></g>\n",
        ),
        Piece::Text(
            b"<g id='s-staged'><rect class='b' x='-5' y='-8' width='10' height='16' rx='2'/><text class='g' text-anchor='middle' y='4'>S</text></g>\n",
        ),
        Piece::Text(
            b"<g id='s-skipped'><rect class='o' x='-5' y='-8' width='10' height='16' rx='2'/><text class='g' text-anchor='middle' y='4'>K</text></g>\n",
        ),
        Piece::Text(
            b"<g id='s-destaged'><rect class='b' x='-5' y='-8' width='10' height='16' rx='2'/><text class='g' text-anchor='middle' y='4'>D</text></g>\n",
        ),
        Piece::Text(
            b"<g id='s-finished'><rect class='b' x='-5' y='-8' width='10' height='16' rx='2'/><text class='g' text-anchor='middle' y='4'>F</text></g>\n",
        ),
        Piece::Text(
            b"<g id='s-unwritten'><rect class='x' x='-5' y='-8' width='10' height='16' rx='2'/><text class='g' text-anchor='middle' y='4'>U</text></g>\n",
        ),
        Piece::Text(
            b"<g id='s-fault'><rect class='x' x='-5' y='-8' width='10' height='16' rx='2'/><text class='g' text-anchor='middle' y='4'>!</text></g>\n",
        ),
        Piece::Text(
            b"<g id='s-harden'><rect class='b' x='-5' y='-8' width='10' height='16' rx='2'/><text class='g' text-anchor='middle' y='4'>H</text></g>\n",
        ),
        Piece::Text(
            b"<g id='s-loosen'><rect class='o' x='-5' y='-8' width='10' height='16' rx='2'/><text class='g' text-anchor='middle' y='4'>L</text></g>\n",
        ),
        Piece::Text(
            b"<g id='s-pair'><rect class='b' x='-5' y='-8' width='10' height='16' rx='2'/><text class='g' text-anchor='middle' y='4'>P</text></g>\n",
        ),
        Piece::Text(
            b"<g id='s-unpair'><rect class='o' x='-5' y='-8' width='10' height='16' rx='2'/><text class='g' text-anchor='middle' y='4'>U</text></g>\n",
        ),
        Piece::Text(
            b"<g id='s-hold'><rect class='o' x='-5' y='-8' width='10' height='16' rx='2'/><text class='g' text-anchor='middle' y='4'>H</text></g>\n",
        ),
        Piece::Text(
            b"<g id='s-resume'><rect class='b' x='-5' y='-8' width='10' height='16' rx='2'/><text class='g' text-anchor='middle' y='4'>R</text></g>\n",
        ),
        Piece::Text(
            b"<g id='s-replace'><rect class='b' x='-5' y='-8' width='10' height='16' rx='2'/><text class='g' text-anchor='middle' y='4'>N</text></g>\n",
        ),
        Piece::Text(
            b"<g id='s-repair'><rect class='b' x='-5' y='-8' width='10' height='16' rx='2'/><text class='g' text-anchor='middle' y='4'>+</text></g>\n",
        ),
        Piece::Text(
            b"<g id='s-wait'><rect class='o' x='-5' y='-8' width='10' height='16' rx='2'/><text class='g' text-anchor='middle' y='4'>W</text></g>\n",
        ),
        Piece::Text(
            b"<g id='s-power'><rect class='x' x='-5' y='-8' width='10' height='16' rx='2'/><text class='g' text-anchor='middle' y='4'>Z</text></g>\n",
        ),
        Piece::Text(b"</defs></svg>\n"),
    ];
    page.put(&pieces)
}

/// What the shapes mean.
#[tactic(auto, unfolding(crate::specs::Fixed::key_text))]
pub(crate) fn put_key(page: &mut Page) -> Result<(), NoMemory>
    ensures { OnOk result (page.new ≡ page.old ++ key_text) }
{
    let pieces = [
        Piece::Text(b"<section id='key'><h2>Key</h2><ul class='key'>\n"),
        Piece::Text(
            b"<li><svg width='20' height='20'><use href='#s-begin' x='10' y='10'/></svg>a program starts</li>\n",
        ),
        Piece::Text(
            b"<li><svg width='20' height='20'><use href='#s-refused' x='10' y='10'/></svg>a start or an order is refused</li>\n",
        ),
        Piece::Text(
            b"<li><svg width='20' height='20'><use href='#s-ended' x='10' y='10'/></svg>a command ends</li>\n",
        ),
        Piece::Text(
            b"<li><svg width='20' height='20'><use href='#s-exception' x='10' y='10'/></svg>unit exception: end of file</li>\n",
        ),
        Piece::Text(
            b"<li><svg width='20' height='20'><use href='#s-check' x='10' y='10'/></svg>unit check</li>\n",
        ),
        Piece::Text(
            b"<li><svg width='20' height='20'><use href='#s-half' x='10' y='10'/></svg>the first part of a write is done</li>\n",
        ),
        Piece::Text(
            b"<li><svg width='20' height='20'><use href='#s-over' x='10' y='10'/></svg>a program is over</li>\n",
        ),
        Piece::Text(
            b"<li><svg width='20' height='20'><use href='#s-cut' x='10' y='10'/></svg>a program is cut</li>\n",
        ),
        Piece::Text(
            b"<li><svg width='20' height='20'><use href='#s-reset' x='10' y='10'/></svg>a path is reset</li>\n",
        ),
        Piece::Text(
            b"<li><svg width='20' height='20'><use href='#s-read' x='10' y='10'/></svg>reads of volumes</li>\n",
        ),
        Piece::Text(
            b"<li><svg width='20' height='20'><use href='#s-write' x='10' y='10'/></svg>writes of volumes</li>\n",
        ),
        Piece::Text(
            b"<li><svg width='20' height='20'><use href='#s-both' x='10' y='10'/></svg>reads and writes</li>\n",
        ),
        Piece::Text(
            b"<li><svg width='20' height='20'><use href='#s-nothing' x='10' y='10'/></svg>nothing to do</li>\n",
        ),
        Piece::Text(
            b"<li><svg width='20' height='20'><use href='#s-recovered' x='10' y='10'/></svg>a track is recovered</li>\n",
        ),
        Piece::Text(
            b"<li><svg width='20' height='20'><use href='#s-copied' x='10' y='10'/></svg>a track is copied to side B</li>\n",
        ),
        Piece::Text(
            b"<li><svg width='20' height='20'><use href='#s-staged' x='10' y='10'/></svg>a track is staged</li>\n",
        ),
        Piece::Text(
            b"<li><svg width='20' height='20'><use href='#s-skipped' x='10' y='10'/></svg>a track isn't staged</li>\n",
        ),
        Piece::Text(
            b"<li><svg width='20' height='20'><use href='#s-destaged' x='10' y='10'/></svg>a track is destaged</li>\n",
        ),
        Piece::Text(
            b"<li><svg width='20' height='20'><use href='#s-finished' x='10' y='10'/></svg>the second part of a write is done</li>\n",
        ),
        Piece::Text(
            b"<li><svg width='20' height='20'><use href='#s-unwritten' x='10' y='10'/></svg>the second part isn't done</li>\n",
        ),
        Piece::Text(
            b"<li><svg width='20' height='20'><use href='#s-fault' x='10' y='10'/></svg>a side fails</li>\n",
        ),
        Piece::Text(
            b"<li><svg width='20' height='20'><use href='#s-loosen' x='10' y='10'/></svg>a track may be lost with the cache</li>\n",
        ),
        Piece::Text(
            b"<li><svg width='20' height='20'><use href='#s-harden' x='10' y='10'/></svg>it no longer may</li>\n",
        ),
        Piece::Text(
            b"<li><svg width='20' height='20'><use href='#s-loss' x='10' y='10'/></svg>a loss</li>\n",
        ),
        Piece::Text(
            b"<li><svg width='20' height='20'><use href='#s-pair' x='10' y='10'/></svg>a pair begins</li>\n",
        ),
        Piece::Text(
            b"<li><svg width='20' height='20'><use href='#s-unpair' x='10' y='10'/></svg>a pair ends</li>\n",
        ),
        Piece::Text(
            b"<li><svg width='20' height='20'><use href='#s-hold' x='10' y='10'/></svg>side B is held</li>\n",
        ),
        Piece::Text(
            b"<li><svg width='20' height='20'><use href='#s-resume' x='10' y='10'/></svg>its hold ends</li>\n",
        ),
        Piece::Text(
            b"<li><svg width='20' height='20'><use href='#s-replace' x='10' y='10'/></svg>a new volume</li>\n",
        ),
        Piece::Text(
            b"<li><svg width='20' height='20'><use href='#s-repair' x='10' y='10'/></svg>a repair</li>\n",
        ),
        Piece::Text(
            b"<li><svg width='20' height='20'><use href='#s-wait' x='10' y='10'/></svg>a repair waits</li>\n",
        ),
        Piece::Text(
            b"<li><svg width='20' height='20'><use href='#s-power' x='10' y='10'/></svg>a loss of power</li>\n",
        ),
        Piece::Text(
            b"</ul><p>Rows of a device: its orders; its own work and what became of data of cache fast write; its sides, as far as orders tell; calls of volumes; the programs of paths 1 to 4. A mark leads to its line of the report, and so do the cells of the tracks. The keys j and k go to the next line and to the one before.</p>\n",
        ),
        Piece::Text(
            b"<p>Tracks at the end: L is lost, M has a modified frame, C a clean one; of the others the report tells nothing.</p></section>\n",
        ),
    ];
    page.put(&pieces)
}

/// The script that goes from line to line, and the end of the page.
#[tactic(auto, unfolding(crate::specs::Fixed::tail_text))]
pub(crate) fn put_tail(page: &mut Page) -> Result<(), NoMemory>
    ensures { OnOk result (page.new ≡ page.old ++ tail_text) }
{
    let pieces = [
        Piece::Text(b"<script>\n"),
        Piece::Text(b"addEventListener('keydown',function(e){\n"),
        Piece::Text(b"var d=e.key=='j'?1:e.key=='k'?-1:0;\n"),
        Piece::Text(b"if(d==0||e.ctrlKey||e.altKey||e.metaKey)return;\n"),
        Piece::Text(b"var n=location.hash.slice(0,2)=='#l'?Number(location.hash.slice(2)):0;\n"),
        Piece::Text(b"var t=document.getElementById('l'+(n+d));\n"),
        Piece::Text(b"if(t){location.hash=t.id;}\n"),
        Piece::Text(b"});\n"),
        Piece::Text(b"</script>\n"),
        Piece::Text(b"</body></html>\n"),
    ];
    page.put(&pieces)
}
