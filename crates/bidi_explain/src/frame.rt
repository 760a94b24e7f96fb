//! What is around the sections of a page of HTML.

/// What is before the sections: the styles, the script that marks a character, and the legend.
pub const HEAD: &str = r#"<!DOCTYPE html>
<html lang="en" dir="ltr">
<head>
<meta charset="utf-8">
<title>Stages of the bidirectional algorithm</title>
<style>
body { font: 14px system-ui, sans-serif; margin: 1.5rem; color: #222; background: #fff; }
details { margin-bottom: 2rem; }
dl { display: grid; grid-template-columns: max-content 1fr; gap: .2rem 1rem; }
dd { margin: 0; }
section { margin-bottom: 3rem; overflow-x: auto; }
pre { font: inherit; color: #555; margin: 0 0 .8rem; white-space: pre-wrap; position: sticky; left: 0; }
table { border-spacing: 0; table-layout: fixed; width: max-content; margin-bottom: 1.5rem; }
th { width: 6rem; padding-right: 1rem; text-align: right; font-weight: normal; color: #555;
  position: sticky; left: 0; z-index: 1; background: #fff; }
td { width: 2.4rem; height: 1.4rem; padding: 0; text-align: center; font-size: 12px; }
td[style] { height: 2.2rem; font-size: 1.1rem; border: 1px solid #888; border-left: 3px solid #555;
  unicode-bidi: isolate; background: hsl(calc(200 + var(--level) * 137) 75% 86%); }
td.rtl { border-left: 1px solid #888; border-right: 3px solid #555; }
tfoot .rtl { direction: rtl; }
svg { display: block; width: 100%; height: 5rem; }
line { stroke: #777; stroke-width: 1.5px; vector-effect: non-scaling-stroke; transform: translate(.5px, 0); }
td.on:not([style]) { background: #ffe9a8; }
td[style].on { outline: 3px solid #c00; outline-offset: -2px; }
line.on { stroke: #c00; stroke-width: 4px; }
</style>
<script>
// Marks the character that is pointed at: its column, its line, and its box in visual order.
let marked = [];
function mark(event) {
  marked.forEach(part => part.classList.remove("on"));
  const part = event.target.closest("section td, section line");
  const box = part?.closest("tbody")?.rows[0].cells[part.cellIndex] ?? part;
  const at = box?.dataset.at;
  marked = at ? [...part.closest("section").querySelectorAll(`[data-at="${at}"]`)] : [];
  const first = marked.find(same => same.tabIndex == 0);
  marked.push(...Array.from(first?.closest("tbody").rows ?? [], row => row.cells[first.cellIndex]));
  marked.forEach(part => part.classList.add("on"));
}
for (const type of ["mouseover", "focusin"]) document.addEventListener(type, mark);
</script>
</head>
<body>
<details open>
<summary>How to read this page</summary>
<p>A column is a character, in the order in which the text has them. A row is what a step of the algorithm makes of it.
The last row of a block has the characters from left to right, as they are displayed. A block has 30 characters at most.
Point at a character to see its column, and its box in the last row.</p>
<table>
<tr><th>level</th><td style="--level:0">0</td><td class="rtl" style="--level:1">1</td><td style="--level:2">2</td>
<td class="rtl" style="--level:3">3</td><td style="--level:4">4</td><td class="rtl" style="--level:5">5</td></tr>
</table>
<dl>
<dt>level</dt><dd>An even level is left to right, an odd level right to left. Each level has a colour. A box has its
thick edge on the side where its direction begins.</dd>
<dt>class</dt><dd>the class of the character, such as L (left to right), R and AL (right to left), EN and AN (numbers)</dd>
<dt>after X, explicit level</dt><dd>its class and its level after X1 to X8, by the embeddings, overrides and isolates around it</dd>
<dt>after W</dt><dd>its class after W1 to W7, which resolve numbers and marks</dd>
<dt>after N</dt><dd>its class after N0 to N2, which resolve brackets, spaces and other neutrals</dd>
<dt>level</dt><dd>its level after I1 and I2</dd>
<dt>level in line</dt><dd>its level after L1, by which the line is reordered (L2)</dd>
<dt>visual place</dt><dd>its index from left to right in the line as it is displayed</dd>
<dt>-</dt><dd>X9 removes the character, so the rules W1 to N2 pass over it</dd>
<dt>empty box</dt><dd>white space or another invisible character; direction controls and marks have their short names</dd>
</dl>
</details>
"#;

/// What is after the sections.
pub const FOOT: &str = "</body>\n</html>\n";
