//! What is the same in each flame graph: its style, and the script that zooms and searches.

/// Before the height.
pub const BEFORE_HEIGHT: &[u8] = b"<svg xmlns='http://www.w3.org/2000/svg' width='100%' height='";

/// Between the height and the title: the style.
pub const BEFORE_TITLE: &[u8] = b"'>
<style>
:root { background: #fff; fill: #000; font-family: sans-serif; }
text { font-size: 12px; white-space: pre; }
#title { font-size: 16px; }
#labels { fill: #000; font-family: monospace; pointer-events: none; }
#boxes { cursor: pointer; }
#boxes > rect:hover, #boxes > rect:focus { stroke: #000; stroke-width: 1.5; outline: none; }
#boxes > .around { opacity: .5; }
#boxes > .found { fill: #d6f; }
#controls { display: flex; gap: 8px; align-items: center; padding: 0 6px; font-size: 12px; }
#controls * { font: inherit; }
#field { flex: 0 1 260px; min-width: 80px; }
#field.wrong { outline: 2px solid #e33; }
#said { white-space: nowrap; }
@media (prefers-color-scheme: dark) {
:root { background: #111; fill: #eee; color: #eee; color-scheme: dark; }
#boxes > rect:hover, #boxes > rect:focus { stroke: #fff; }
}
</style>
<text x='6' y='19' id='title'>";

/// Between the title and the boxes.
pub const BEFORE_BOXES: &[u8] = b"</text>
<text x='6' y='66' id='details'></text>
<svg y='76'>
<g id='boxes'>
";

/// Between the boxes and the labels of those that are wide.
pub const BEFORE_LABELS: &[u8] = b"</g>
<g id='labels'>
";

/// Behind the labels: the script.
pub const BEHIND_LABELS: &[u8] = b"</g>
</svg>
<script><![CDATA[
const svg = (name) => document.createElementNS('http://www.w3.org/2000/svg', name);
const html = (name) => document.createElementNS('http://www.w3.org/1999/xhtml', name);
const by_id = (id) => document.getElementById(id);
const group = by_id('boxes'), labels = by_id('labels'), details = by_id('details');
// Places and widths are whole numbers, in millionths of a per cent of all samples.
const boxes = Array.from(group.children, (node) => {
  const text = node.firstElementChild.textContent;
  const [, name, samples, share] = /^(.*): (\\d+) samples?, ([.\\d]+%).*$/s.exec(text);
  const figures = samples + ', ' + share;
  const of = (attribute) => parseInt(node.getAttribute(attribute));
  const box = { node, text, name, figures, y: of('y'), left: of('x'), width: of('width') };
  box.end = box.left + box.width;
  node.box = box;
  return box;
});
const whole = boxes[0];
let zoomed = whole, marked = false;
const is_around = (b) => b.y > zoomed.y && b.left <= zoomed.left && b.end >= zoomed.end;
const is_inside = (b) => b.y <= zoomed.y && b.left >= zoomed.left && b.end <= zoomed.end;

// How many letters wide a text is, and its beginning that is at most so wide.
const columns = (letter) => letter < '\\x80' ? 1 : 2;
const letters_of = (text) => Array.from(text).reduce((sum, letter) => sum + columns(letter), 0);
function cut(text, room) {
  let part = '';
  for (const letter of text) {
    room -= columns(letter);
    if (room < 0) break;
    part += letter;
  }
  return part;
}
function label_of(b, room) {
  const full = b.name + ' (' + b.figures + ')';
  if (letters_of(full) <= room) return full;
  if (letters_of(b.name) <= room) return b.name;
  const part = cut(b.name, room - 2);
  return part && part + '..';
}
const ruler = svg('text');
ruler.textContent = 'm'.repeat(100);
// Without the boxes, so that they aren't laid out to measure it.
group.replaceChildren();
labels.replaceChildren(ruler);
const letter_width = ruler.getComputedTextLength() / 100 || 7.25;

// Draws the box that is zoomed, those in it and around it, and the labels that have room.
function draw() {
  const shown = document.createDocumentFragment(), names = document.createDocumentFragment();
  const window_width = document.documentElement.clientWidth || innerWidth;
  for (const b of boxes) {
    const around = is_around(b);
    if (!around && !is_inside(b)) continue;
    const left = around ? 0 : (b.left - zoomed.left) / zoomed.width * 100;
    const width = around ? 100 : b.width / zoomed.width * 100;
    const pixels = width / 100 * window_width;
    if (pixels < .1) continue;
    b.node.classList.toggle('around', around);
    b.node.setAttribute('x', left + '%');
    b.node.setAttribute('width', width + '%');
    b.node.setAttribute('tabindex', '0');
    shown.append(b.node);
    const room = Math.floor((pixels - 6) / letter_width);
    const label = room < 3 ? '' : label_of(b, room);
    if (!label) continue;
    const text = svg('text');
    text.textContent = label;
    text.setAttribute('x', left + '%');
    text.setAttribute('dx', 3);
    text.setAttribute('y', b.y + 13);
    names.append(text);
  }
  group.replaceChildren(shown);
  labels.replaceChildren(names);
}

const controls = html('div'), field = html('input'), reset = html('button'), said = html('span');
controls.id = 'controls';
field.id = 'field';
field.placeholder = 'Search: a regular expression';
field.title = 'Ctrl-F; Escape clears it';
reset.textContent = 'Reset zoom';
said.id = 'said';
controls.append(field, reset, said);
const frame = svg('foreignObject');
frame.setAttribute('y', 27);
frame.setAttribute('width', '100%');
frame.setAttribute('height', 28);
frame.append(controls);
document.documentElement.insertBefore(frame, details);
const hint = 'Click or Enter: zoom. Click outside: all. Ctrl-F: search.';
const tell = (b) => { details.textContent = b ? b.text : hint; };

function zoom(to) {
  const focused = document.activeElement;
  zoomed = to;
  reset.style.display = to === whole ? 'none' : '';
  draw();
  if (focused && focused.box) to.node.focus();
  report();
}
// Marks the boxes of functions that the regular expression matches, and returns how many.
function search(pattern) {
  let expression = null;
  field.classList.remove('wrong');
  try {
    expression = pattern && new RegExp(pattern);
  } catch {
    field.classList.add('wrong');
  }
  const known = new Map();
  let count = 0;
  for (const b of boxes) {
    if (!known.has(b.name)) known.set(b.name, Boolean(expression) && expression.test(b.name));
    const found = known.get(b.name);
    if (found !== Boolean(b.found)) b.node.classList.toggle('found', found);
    b.found = found;
    count += found;
  }
  marked = Boolean(expression);
  report();
  return count;
}
// Says how many boxes are marked, and what share of the zoomed box's samples is in them.
function report() {
  let count = 0, share = 0, until = 0;
  for (const b of boxes) {
    if (!b.found) continue;
    if (is_around(b)) [share, until] = [zoomed.width, zoomed.end];
    if (!is_inside(b)) continue;
    count += 1;
    if (b.left >= until) [share, until] = [share + b.width, b.end];
  }
  const of = zoomed === whole ? 'all samples' : 'the samples of ' + zoomed.name;
  const per_cent = (share / zoomed.width * 100).toFixed(2) + '% of ';
  const result = count + (count === 1 ? ' box, ' : ' boxes, ') + per_cent + of;
  const wrong = field.classList.contains('wrong');
  said.textContent = wrong ? 'no regular expression' : marked ? result : '';
}
const box_at = (event) => event.target.box;
group.addEventListener('mouseover', (e) => tell(box_at(e)));
group.addEventListener('mouseout', () => tell());
group.addEventListener('focusin', (e) => tell(box_at(e)));
field.addEventListener('input', () => search(field.value));
const is_control = (node) => node !== controls && controls.contains(node);
addEventListener('click', (e) => {
  const to = is_control(e.target) ? zoomed : box_at(e) || whole;
  if (to !== zoomed) zoom(to);
});
reset.addEventListener('click', () => zoom(whole));
addEventListener('resize', draw);
addEventListener('keydown', (e) => {
  if (e.key === 'Enter' && box_at(e)) zoom(box_at(e));
  if ((e.ctrlKey || e.metaKey) && e.key === 'f' || e.key === '/' && e.target !== field) {
    e.preventDefault();
    field.select();
    field.focus();
  }
  if (e.key !== 'Escape') return;
  if (!field.value) zoom(whole);
  field.value = '';
  search('');
});
tell();
zoom(whole);
]]></script>
</svg>
";
