//! The elements: what opens and closes a picture, rectangles, lines, words and paths, each with the
//! names of the classes that say how it looks.
ghost use Rattle.std.specs.Prelude.{◌≡◌, ◌++◌, OnOk};
ghost use Rattle.svg.specs.Elements.{attribute, begun, close_text, frame_text, line_text, open_text, pair_text, path_end_text, path_text, rect_text, shifted_end_text, shifted_text, svg_text, title_text, told_rect_text, turn_text, view_text, words_text};

use crate::paper::Paper;
use base::Memory;

/// Where a rectangle is, in whole pixels.
#[derive(Clone, Copy, Debug, PartialEq, Eq)]
pub struct Frame {
    pub x: u64,
    pub y: u64,
    pub width: u64,
    pub height: u64,
}

impl Paper {
    // ---- parts of elements

    /// Begins an element: its name and its classes.
    #[tactic(auto, unfolding(crate::specs::Elements::begun))]
    fn begin(&mut self, element: &str, class: &str) -> Result<(), Memory>
        ensures { OnOk result (self.new.text.items ≡ self.old.text.items ++ begun element.now class.now) }
    {
        let text = format!(in self.alloc; "<{element} class=\"{class}\"")?;
        self.put(&text)
    }

    /// A number of an element, by its name.
    #[tactic(auto, unfolding(crate::specs::Elements::attribute))]
    fn attribute(&mut self, name: &str, number: u64) -> Result<(), Memory>
        ensures { OnOk result (self.new.text.items ≡ self.old.text.items ++ attribute name.now number) }
    {
        let text = format!(in self.alloc; " {name}=\"{number}\"")?;
        self.put(&text)
    }

    /// Two numbers beside each other.
    #[tactic(auto, unfolding(crate::specs::Elements::pair_text))]
    fn pair(&mut self, x: u64, y: u64) -> Result<(), Memory>
        ensures { OnOk result (self.new.text.items ≡ self.old.text.items ++ pair_text x y) }
    {
        let text = format!(in self.alloc; "{x} {y}")?;
        self.put(&text)
    }

    /// What a browser tells of the element around it.
    #[tactic(auto, unfolding(crate::specs::Elements::title_text))]
    pub fn title(&mut self, words: &str) -> Result<(), Memory>
        ensures { OnOk result (self.new.text.items ≡ self.old.text.items ++ title_text words.now) }
    {
        self.put("<title>")?;
        self.put_escaped(words)?;
        self.put("</title>")?;
        Ok(())
    }

    // ---- the picture

    /// Begins the element that holds all others.
    #[tactic(auto, unfolding(crate::specs::Elements::svg_text))]
    fn svg(&mut self) -> Result<(), Memory>
        ensures { OnOk result (self.new.text.items ≡ self.old.text.items ++ svg_text) }
    {
        self.put("<svg xmlns=\"http://www.w3.org/2000/svg\" role=\"img\"")
    }

    /// Begins to say what is seen of it: from its corner on.
    #[tactic(auto, unfolding(crate::specs::Elements::view_text))]
    fn view(&mut self) -> Result<(), Memory>
        ensures { OnOk result (self.new.text.items ≡ self.old.text.items ++ view_text) }
    {
        self.put(" viewBox=\"0 0 ")
    }

    /// Opens a picture of this size.
    #[tactic(auto, unfolding(crate::specs::Elements::open_text))]
    pub fn open(&mut self, width: u64, height: u64) -> Result<(), Memory>
        ensures { OnOk result (self.new.text.items ≡ self.old.text.items ++ open_text width height) }
    {
        self.svg()?;
        self.attribute("width", width)?;
        self.attribute("height", height)?;
        self.view()?;
        self.pair(width, height)?;
        self.put("\">\n")?;
        Ok(())
    }

    /// Closes the picture.
    pub fn close(&mut self) -> Result<(), Memory>
        ensures { OnOk result (self.new.text.items ≡ self.old.text.items ++ close_text) }
    {
        self.put("</svg>\n")
    }

    /// What follows is shifted by one pixel, to the right and down.
    #[tactic(auto, unfolding(crate::specs::Elements::shifted_text))]
    pub fn shifted(&mut self, class: &str) -> Result<(), Memory>
        ensures { OnOk result (self.new.text.items ≡ self.old.text.items ++ shifted_text class.now) }
    {
        self.begin("g", class)?;
        self.put(" transform=\"translate(1 1)\">\n")?;
        Ok(())
    }

    /// What follows is not.
    pub fn end_shifted(&mut self) -> Result<(), Memory>
        ensures { OnOk result (self.new.text.items ≡ self.old.text.items ++ shifted_end_text) }
    {
        self.put("</g>\n")
    }

    // ---- rectangles, lines and words

    /// The numbers of a rectangle.
    #[tactic(auto, unfolding(crate::specs::Elements::frame_text))]
    fn frame(&mut self, class: &str, frame: Frame) -> Result<(), Memory>
        ensures { OnOk result (self.new.text.items ≡ self.old.text.items ++ frame_text class.now frame) }
    {
        self.begin("rect", class)?;
        self.attribute("x", frame.x)?;
        self.attribute("y", frame.y)?;
        self.attribute("width", frame.width)?;
        self.attribute("height", frame.height)?;
        Ok(())
    }

    /// A rectangle.
    #[tactic(auto, unfolding(crate::specs::Elements::rect_text))]
    pub fn rect(&mut self, class: &str, frame: Frame) -> Result<(), Memory>
        ensures { OnOk result (self.new.text.items ≡ self.old.text.items ++ rect_text class.now frame) }
    {
        self.frame(class, frame)?;
        self.put("/>\n")?;
        Ok(())
    }

    /// A rectangle with round corners, of which a browser tells something.
    #[tactic(auto, unfolding(crate::specs::Elements::told_rect_text))]
    pub fn told_rect(&mut self, class: &str, frame: Frame, tip: &str) -> Result<(), Memory>
        ensures { OnOk result (self.new.text.items ≡ self.old.text.items ++ told_rect_text class.now frame tip.now) }
    {
        self.frame(class, frame)?;
        self.put(" rx=\"2\">")?;
        self.title(tip)?;
        self.put("</rect>\n")?;
        Ok(())
    }

    /// A line from one place to another one.
    #[tactic(auto, unfolding(crate::specs::Elements::line_text))]
    pub fn line(&mut self, class: &str, x: u64, y: u64, right: u64, low: u64) -> Result<(), Memory>
        ensures { OnOk result (self.new.text.items ≡ self.old.text.items ++ line_text class.now x y right low) }
    {
        self.begin("line", class)?;
        self.attribute("x1", x)?;
        self.attribute("y1", y)?;
        self.attribute("x2", right)?;
        self.attribute("y2", low)?;
        self.put("/>\n")?;
        Ok(())
    }

    /// Words whose feet are at y.
    #[tactic(auto, unfolding(crate::specs::Elements::words_text))]
    pub fn words(&mut self, class: &str, x: u64, y: u64, words: &str) -> Result<(), Memory>
        ensures { OnOk result (self.new.text.items ≡ self.old.text.items ++ words_text class.now x y words.now) }
    {
        self.begin("text", class)?;
        self.attribute("x", x)?;
        self.attribute("y", y)?;
        self.put(">")?;
        self.put_escaped(words)?;
        self.put("</text>\n")?;
        Ok(())
    }

    // ---- paths

    /// Begins a path.
    #[tactic(auto, unfolding(crate::specs::Elements::path_text))]
    pub fn path(&mut self, class: &str, x: u64, y: u64) -> Result<(), Memory>
        ensures { OnOk result (self.new.text.items ≡ self.old.text.items ++ path_text class.now x y) }
    {
        self.begin("path", class)?;
        self.put(" d=\"M")?;
        self.pair(x, y)?;
        Ok(())
    }

    /// The path goes across to x, and then up or down to y.
    #[tactic(auto, unfolding(crate::specs::Elements::turn_text))]
    pub fn turn(&mut self, x: u64, y: u64) -> Result<(), Memory>
        ensures { OnOk result (self.new.text.items ≡ self.old.text.items ++ turn_text x y) }
    {
        let text = format!(in self.alloc; "H{x}V{y}")?;
        self.put(&text)
    }

    /// The path goes back to where it began.
    pub fn end_path(&mut self) -> Result<(), Memory>
        ensures { OnOk result (self.new.text.items ≡ self.old.text.items ++ path_end_text) }
    {
        self.put("Z\"/>\n")
    }
}
