// A picture of the goods carried at each shelf that came or went, with one line for each rule.
use crate::contest::Contest;
use std::alloc::{AllocError, Global};

// Where the lines are drawn, in pixels.
const LEFT: u64 = 80;

const TOP: u64 = 50;

const WIDTH: u64 = 700;

const HEIGHT: u64 = 360;

const HEAD: &str =
    "<svg xmlns=\"http://www.w3.org/2000/svg\" viewBox=\"0 0 920 480\" font-family=\"sans-serif\" font-size=\"13\">
<rect width=\"920\" height=\"480\" fill=\"white\"/>
<text x=\"80\" y=\"28\" font-size=\"17\">Goods carried at each shelf that came or went</text>
<text x=\"430\" y=\"456\" text-anchor=\"middle\">shelves that came or went, in order</text>
<text x=\"24\" y=\"230\" text-anchor=\"middle\" transform=\"rotate(-90 24 230)\">goods carried (each line ten times the one below)</text>
<path d=\"M80 50V410H780\" fill=\"none\" stroke=\"#444\"/>
";

// In the order of the contests.
const COLOURS: [&str; 4] = ["#d62728", "#1f77b4", "#2ca02c", "#ff7f0e"];

const OURS: &str = "#000000";

pub fn picture(heap: Global, contests: &[Contest]) -> Result<String, AllocError> {
    let mut drawing = Drawing {
        text: String::from_str(heap, HEAD)?,
        top: height(greatest(contests)).max(1),
    };
    drawing.grid()?;
    if let Some(first) = contests.first() {
        drawing.ticks(first.ours.at_shelves.len())?;
    }
    for (place, contest) in contests.iter().enumerate() {
        let colour = COLOURS[place % COLOURS.len()];
        drawing.curve(contest.theirs.at_shelves.as_slice(), colour, 2)?;
        drawing.legend(contest.rule, colour, place)?;
    }
    if let Some(first) = contests.first() {
        drawing.curve(first.ours.at_shelves.as_slice(), OURS, 3)?;
        drawing.legend("ours", OURS, contests.len())?;
    }
    drawing.text.push_str("</svg>\n")?;
    Ok(drawing.text)
}

// The most goods that a rule carried at one shelf; ten at least.
fn greatest(contests: &[Contest]) -> u64 {
    contests
        .iter()
        .flat_map(|contest| contest
            .theirs
            .at_shelves
            .iter()
            .chain(contest.ours.at_shelves.iter()))
        .copied()
        .fold(10, u64::max)
}

// A thousand for each doubling, and in between in proportion: close to a logarithm.
fn height(number: u64) -> u64 {
    let Some(doublings) = number.checked_ilog2() else {
        return 0;
    };
    if doublings >= 63 {
        return 63000;
    }
    let power = 1u64 << doublings;
    let above = number.saturating_sub(power).saturating_mul(1000) / power;
    (u64::from(doublings) * 1000).saturating_add(above)
}

// How far down a number is drawn.
fn down(number: u64, top: u64) -> u64 {
    let up = height(number).saturating_mul(HEIGHT).checked_div(top);
    (TOP + HEIGHT).saturating_sub(up.unwrap_or(HEIGHT))
}

// How far to the right the shelf at a place is drawn.
fn right(place: usize, count: usize) -> u64 {
    let steps = count.saturating_sub(1).max(1) as u64;
    LEFT.saturating_add((place as u64).saturating_mul(WIDTH) / steps)
}

// The text of a picture so far, and the height at its top.
#[derive(Drop)]
struct Drawing {
    text: String,
    top: u64,
}

impl Drawing {
    // A line for each power of ten.
    fn grid(&mut self) -> Result<(), AllocError> {
        let powers = (0..19).map(|power| 10u64.saturating_pow(power));
        for number in powers.take_while(|number| height(*number) <= self.top) {
            let y = down(number, self.top);
            write!(
                self.text,
                "<path d=\"M80 {y}H780\" stroke=\"#ddd\"/>\n<text x=\"72\" y=\"{}\" text-anchor=\"end\">{number}</text>\n",
                y.saturating_add(4)
            )?;
        }
        Ok(())
    }

    // The number of each tenth shelf that came or went.
    fn ticks(&mut self, count: usize) -> Result<(), AllocError> {
        for number in (10..=count).step_by(10) {
            let x = right(number - 1, count);
            write!(
                self.text,
                "<path d=\"M{x} 410v6\" stroke=\"#444\"/>\n<text x=\"{x}\" y=\"432\" text-anchor=\"middle\">{number}</text>\n"
            )?;
        }
        Ok(())
    }

    fn curve(&mut self, numbers: &[u64], stroke: &str, width: u64) -> Result<(), AllocError> {
        write!(
            self.text,
            "<polyline fill=\"none\" stroke=\"{stroke}\" stroke-width=\"{width}\" points=\""
        )?;
        for (place, number) in numbers.iter().enumerate() {
            let x = right(place, numbers.len());
            write!(self.text, "{x},{} ", down(*number, self.top))?;
        }
        self.text.push_str("\"/>\n")
    }

    fn legend(&mut self, name: &str, stroke: &str, place: usize) -> Result<(), AllocError> {
        let y = (place as u64).saturating_mul(24).saturating_add(70);
        write!(
            self.text,
            "<path d=\"M796 {y}H816\" stroke=\"{stroke}\" stroke-width=\"3\"/>\n<text x=\"822\" y=\"{}\">{name}</text>\n",
            y.saturating_add(4)
        )
    }
}
